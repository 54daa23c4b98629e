// What the program prints of a journal that arrives in pieces: the lines of one call of feed, numbered on from those before it.
ghost use Rattle.std.specs.Prelude.{◌≡◌, length, nat_lt};
ghost use Rattle.std.specs.List.{concat};
ghost use Rattle.model.specs.Sizes.{header_bytes};
ghost use Rattle.model.specs.Pieces.{header_count, begun_count};
ghost use Rattle.host.specs.View.{view};
ghost use Rattle.print.specs.Pages.{typed_all_on};
ghost use Rattle.output.specs.Stream.{told_records, told_after, open_lines, end_lines, ran_lines};
ghost use Rattle.output.specs.Promises.{Streams};

use super::{ANSWER, TITLE, cut_line, done_line, first_answers, record_lines, turned_away};
use host::Host;
use pieces::Kept;
use print::{Page, Status};
use reader::HEADER;

// How many records were accepted and refused so far, modulo 2^64.
#[derive(Clone, Copy)]
pub struct Told {
    pub accepted: u64,
    pub refused: u64,
}

// How many bytes were typed, the status so far, how many bytes of the piece were taken, and what was told with this call.
#[derive(Clone, Copy)]
pub struct Streamed {
    pub bytes: usize,
    pub status: Status,
    pub taken: usize,
    pub told: Told,
}

const HEADER_COUNT: usize = 0;

const BEGUN_COUNT: usize = 1;

// ---- what is kept

// How many bytes of the header were taken.
fn header_count(k: &Kept) -> usize
    ensures { result ≡ header_count k.now }
{
    k[HEADER_COUNT] as usize
}

// How many bytes of a begun record are kept.
fn begun_count(k: &Kept) -> u64
    ensures { result ≡ begun_count k.now }
{
    k[BEGUN_COUNT] as u64
}

fn is_short(k: &Kept) -> bool
    ensures { result ≡ nat_lt (header_count k.now) header_bytes }
{
    header_count(k) < HEADER
}

// ---- counts

impl Told {
    fn records(self) -> u64
        ensures { result ≡ told_records self }
    {
        self.accepted.wrapping_add(self.refused)
    }

    // With the records of these answers: what is 0 first is done.
    fn after(self, answers: &[[u8; ANSWER]]) -> Told
        ensures { result ≡ told_after self (length answers.now) (concat answers.now) }
    {
        let accepted = answers.iter().filter(|answer| answer[0] == 0).count();
        let refused = answers.len() - accepted;
        Told {
            accepted: self.accepted.wrapping_add(accepted as u64),
            refused: self.refused.wrapping_add(refused as u64),
        }
    }
}

// ---- lines

// The title, where the header became whole, and the records.
#[tactic(auto, using(print::proofs::Pages::typing))]
fn open_lines(page: &mut Page, whole: bool, told: Told, answers: &[[u8; ANSWER]])
    ensures { page.new ≡ typed_all_on page.old (open_lines whole told (length answers.now) (concat answers.now)) }
{
    if whole {
        page.text(TITLE);
    }
    record_lines(page, told.records(), answers);
}

// Bytes left over and the counts, where the input ended.
#[tactic(auto, using(print::proofs::Pages::typing))]
fn end_lines(page: &mut Page, ended: bool, left: u64, told: Told)
    ensures { page.new ≡ typed_all_on page.old (end_lines ended left told) }
{
    if ended {
        cut_line(page, left);
        done_line(page, told.accepted, told.refused);
    }
}

// What is printed of records that were run, and what is told with them.
#[tactic(auto, using(print::proofs::Pages::typing))]
fn ran_lines(
    page: &mut Page,
    short: bool,
    ended: bool,
    told: Told,
    k: &Kept,
    answers: &[[u8; ANSWER]],
) -> Told
    ensures lines { page.new ≡ typed_all_on page.old (ran_lines short ended told (length answers.now) k.now (concat answers.now)) }
    ensures told { result ≡ told_after told (length answers.now) (concat answers.now) }
{
    let whole = short & (header_count(k) == HEADER);
    let then = told.after(answers);
    open_lines(page, whole, told, answers);
    end_lines(page, ended, begun_count(k), then);
    then
}

// ---- the call

// The piece on the host, with what is kept, and what is printed of it. As many records are run as the answers have room for.
pub fn feed(
    h: &mut Host,
    k: &mut Kept,
    told: Told,
    piece: &[u8],
    last: bool,
    answers: &mut [u8],
    out: &mut [u8],
) -> Streamed
    ensures { Streams (view h.old) k.old told piece.now last answers.old out.old result (view h.new) k.new answers.new out.new }
{
    let short = is_short(k);
    let mut page = Page::new(out);
    match pieces::feed(h, k, piece, answers.len() / ANSWER, last, answers) {
        Ok(fed) => {
            let ended = last & (fed.bytes == piece.len());
            let ran = first_answers(answers, fed.records);
            let told = ran_lines(&mut page, short, ended, told, k, ran);
            Streamed {
                bytes: page.place(),
                status: Status::Passed,
                taken: fed.bytes,
                told,
            }
        }
        Err(refusal) => {
            let status = turned_away(&mut page, refusal);
            Streamed {
                bytes: page.place(),
                status,
                taken: 0,
                told,
            }
        }
    }
}
