// A report as bytes: five numbers of 32 bits, low byte first: the verdict's number, taken, accepted, refused, left over.
ghost use Rattle.std.specs.Prelude.{◌≡◌, ◌++◌};
ghost use Rattle.model.specs.Records.{word_bytes};
ghost use Rattle.model.specs.Journal.{verdict_number, report_of};
ghost use Rattle.print.specs.Pages.{typed_all_on};
ghost use Rattle.journal.specs.Promises.{verdict_from, report_from};
ghost use Rattle.ration.specs.Promises.{counts_bytes, report_bytes_of};

use journal::Report;
use numbers::Refusal;
use print::Page;

pub const REPORT: usize = 20;

// What a refused journal has.
const NOTHING: Report = Report {
    taken: 0,
    accepted: 0,
    refused: 0,
    left_over: 0,
};

// The low 32 bits, low byte first.
#[tactic(auto, using(print::proofs::Pages::typing))]
fn put_word(page: &mut Page, v: usize)
    ensures { page.new ≡ typed_all_on page.old (word_bytes v) }
{
    let [a, b, c, d, ..] = v.to_le_bytes();
    page.byte(a);
    page.byte(b);
    page.byte(c);
    page.byte(d);
}

#[tactic(auto, using(print::proofs::Pages::typing))]
fn put_numbers(page: &mut Page, number: u8, r: Report)
    ensures { page.new ≡ typed_all_on page.old (word_bytes number ++ counts_bytes (report_from r)) }
{
    put_word(page, number as usize);
    put_word(page, r.taken);
    put_word(page, r.accepted);
    put_word(page, r.refused);
    put_word(page, r.left_over);
}

// The number and the counts.
fn numbers_of(ran: Result<Report, Refusal>) -> (u8, Report)
    ensures number { result.0 ≡ verdict_number (verdict_from ran) }
    ensures counts { report_from result.1 ≡ report_of (verdict_from ran) }
{
    match ran {
        Ok(r) => (0, r),
        Err(refusal) => (u8::from(refusal), NOTHING),
    }
}

// All of a report's bytes.
pub(crate) fn put_report(out: &mut [u8; REPORT], ran: Result<Report, Refusal>)
    ensures { out.new ≡ report_bytes_of (verdict_from ran) }
{
    let (number, r) = numbers_of(ran);
    let mut page = Page::new(out);
    put_numbers(&mut page, number, r);
}
