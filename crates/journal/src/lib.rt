// A journal, run in place: header, limits, each record judged where it lies, answers and report.
#![tactic(auto)]

ghost use Rattle.std.specs.Prelude.{◌≡◌, ◌≤◌, length};
ghost use Rattle.model.specs.Sizes.{header_bytes};
ghost use Rattle.model.specs.Journal.{has_header, form_refusal, taken, left_over};
ghost use Rattle.host.specs.View.{view};
ghost use Rattle.numbers.specs.Refusals.{code_of};
ghost use Rattle.journal.specs.Promises.{Runs};

use host::Host;
use numbers::Refusal;
use reader::{Found, HEADER, RECORD};
use steps::{ANSWER, Ran};

#[derive(Clone, Copy)]
pub struct Report {
    pub taken: usize,
    pub accepted: usize,
    pub refused: usize,
    pub left_over: usize,
}

// Records that a journal may have.
pub const LIMIT: usize = 4096;

// The first bytes are those of the header: the mark, version 1 as 16 bits low byte first, three zeros.
#[tactic(auto, using(crate::proofs::Header::starts_with_header))]
fn has_header(j: &[u8]) -> bool
    ensures { result ≡ has_header j.now }
{
    j.starts_with(b"RPJ\x01\x00\x00\x00\x00")
}

// Of a journal and a buffer of so many bytes.
#[tactic(auto, using(crate::proofs::Header::long_enough), unfolding(model::specs::Journal::form_refusal))]
fn check_form(j: &[u8], room: usize) -> Result<(), Refusal>
    ensures { code_of result ≡ form_refusal (has_header j.now) (length j.now) room }
{
    if !has_header(j) {
        return Err(Refusal::NoJournal);
    }
    let records = (j.len() - HEADER) / RECORD;
    if records > LIMIT {
        return Err(Refusal::TooLong);
    }
    if room < ANSWER * records {
        return Err(Refusal::NoRoom);
    }
    Ok(())
}

// What the reader says is left over, after so many records.
fn left_over(j: &[u8], n: usize) -> usize
    requires { (n ≡ taken j.now) × (header_bytes ≤ length j.now) }
    ensures { result ≡ left_over j.now }
{
    let turned = reader::turn(j, HEADER + RECORD * n);
    match turned.found {
        Found::Record(_) => 0,
        Found::End(left) => left,
    }
}

pub fn run(h: &mut Host, j: &[u8], out: &mut [u8]) -> Result<Report, Refusal>
    ensures { Runs (view h.old) j.now out.old result (view h.new) out.new }
{
    if let Err(refusal) = check_form(j, out.len()) {
        // A state that is not valid is refused before a form that is wrong.
        if rules::valid(h) {
            return Err(refusal);
        }
        return Err(Refusal::NotValid);
    }
    let Ran { taken, accepted } = steps::run(h, j, HEADER, out)?;
    Ok(Report {
        taken,
        accepted,
        refused: taken - accepted,
        left_over: left_over(j, taken),
    })
}
