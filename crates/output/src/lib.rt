// What the program prints: a journal run on a host, and its answers and its report as lines of text; an image loaded, and its refusal.
#![tactic(auto)]

mod stream; // stream.rt: a journal that arrives in pieces

ghost use Rattle.std.specs.Prelude.{◌≡◌, ◌*◌, ◌≤◌, ◌==◌, [], length};
ghost use Rattle.std.specs.List.{concat};
ghost use Rattle.std.specs.Simd.{first_chunks};
ghost use Rattle.laws.specs.Choice.{pick, at};
ghost use Rattle.model.specs.Sizes.{answer_bytes, answer_value_at};
ghost use Rattle.model.specs.Records.{word_at};
ghost use Rattle.print.specs.Pages.{typed_all_on};
ghost use Rattle.print.specs.Status.{digit_of};
ghost use Rattle.output.specs.Output.{number_then, record_line, refused_line, cut_line, done_line, report_lines, lines_of, ran_status, refused_status, status_of};
ghost use Rattle.numbers.specs.Refusals.{refusal_number, code_of};
ghost use Rattle.output.specs.Stream.{record_lines_from};
ghost use Rattle.host.specs.View.{view};
ghost use Rattle.journal.specs.Promises.{report_from, verdict_from};
ghost use Rattle.output.specs.Promises.{taken_in, Prints, PrintsLoad};

use host::Host;
use journal::Report;
use numbers::Refusal;
use print::{Page, Printed, Status};
pub use stream::{Streamed, Told, feed};

const ANSWER: usize = steps::ANSWER;

const VALUE: usize = steps::ANSWER_VALUE;

const SPACE: u8 = b' ';

const LINE_END: u8 = b'\n';

const TITLE: &str = "RPJ 1\n";

// A number, and a byte after it.
#[tactic(auto, using(print::proofs::Pages::typing))]
fn number_then(page: &mut Page, n: u64, x: u8)
    ensures { page.new ≡ typed_all_on page.old (number_then n x) }
{
    page.number(n);
    page.byte(x);
}

// The number of a record, and the number and the value of its answer.
#[tactic(auto, using(print::proofs::Pages::typing))]
fn record_line(page: &mut Page, n: u64, answer: &[u8; ANSWER])
    ensures { page.new ≡ typed_all_on page.old (record_line n (at answer.now 0) (word_at answer.now answer_value_at)) }
{
    let value = [
        answer[VALUE],
        answer[VALUE + 1],
        answer[VALUE + 2],
        answer[VALUE + 3],
    ];
    number_then(page, n, SPACE);
    number_then(page, answer[0] as u64, SPACE);
    number_then(page, u32::from_le_bytes(value) as u64, LINE_END);
}

// The answers of records that are numbered on from `before`.
fn record_lines(page: &mut Page, before: u64, answers: &[[u8; ANSWER]])
    ensures { page.new ≡ typed_all_on page.old (record_lines_from before (length answers.now) (concat answers.now)) }
{
    for (i, answer) in answers.iter().enumerate() {
        record_line(page, before.wrapping_add(i as u64 + 1), answer);
    }
}

// The first n answers in the buffer.
fn first_answers(answers: &[u8], n: usize) -> &[[u8; ANSWER]]
    requires { answer_bytes * n ≤ length answers.now }
    ensures { result.now ≡ first_chunks answer_bytes n answers.now }
{
    let (all, _) = answers.as_chunks::<ANSWER>();
    &all[..n]
}

#[tactic(auto, using(print::proofs::Pages::typing))]
fn refused_line(page: &mut Page, n: u64)
    ensures { page.new ≡ typed_all_on page.old (refused_line n) }
{
    page.text("refused ");
    number_then(page, n, LINE_END);
}

// The line of a refusal, and the status that goes with it.
fn turned_away(page: &mut Page, refusal: Refusal) -> Status
    ensures line { page.new ≡ typed_all_on page.old (refused_line (refusal_number refusal)) }
    ensures status { digit_of result ≡ refused_status }
{
    refused_line(page, u8::from(refusal) as u64);
    Status::TurnedAway
}

// Nothing where no byte is left over.
#[tactic(auto, using(print::proofs::Pages::typing))]
fn cut_line(page: &mut Page, n: u64)
    ensures { page.new ≡ typed_all_on page.old (cut_line n) }
{
    if n != 0 {
        page.text("cut ");
        number_then(page, n, LINE_END);
    }
}

#[tactic(auto, using(print::proofs::Pages::typing))]
fn done_line(page: &mut Page, accepted: u64, refused: u64)
    ensures { page.new ≡ typed_all_on page.old (done_line accepted refused) }
{
    page.text("done ");
    number_then(page, accepted, SPACE);
    refused_line(page, refused);
}

#[tactic(auto, using(print::proofs::Pages::typing))]
fn report_lines(page: &mut Page, answers: &[u8], r: Report)
    requires { answer_bytes * r.taken ≤ length answers.now }
    ensures { page.new ≡ typed_all_on page.old (report_lines (report_from r) answers.now) }
{
    page.text(TITLE);
    record_lines(page, 0, first_answers(answers, r.taken));
    cut_line(page, r.left_over as u64);
    done_line(page, r.accepted as u64, r.refused as u64);
}

fn lines_of(page: &mut Page, answers: &[u8], ran: Result<Report, Refusal>) -> Status
    requires { answer_bytes * taken_in ran ≤ length answers.now }
    ensures lines { page.new ≡ typed_all_on page.old (lines_of (verdict_from ran) answers.now) }
    ensures status { digit_of result ≡ status_of (verdict_from ran) }
{
    match ran {
        Ok(r) => {
            report_lines(page, answers, r);
            Status::Passed
        }
        Err(refusal) => turned_away(page, refusal),
    }
}

// The journal on the host, and what is printed of it.
pub fn run(h: &mut Host, j: &[u8], answers: &mut [u8], out: &mut [u8]) -> Printed
    ensures { Prints (view h.old) j.now answers.old out.old result (view h.new) answers.new out.new }
{
    let ran = journal::run(h, j, answers);
    let mut page = Page::new(out);
    let status = lines_of(&mut page, answers, ran);
    Printed {
        bytes: page.place(),
        status,
    }
}

// Nothing but of a refusal its line.
#[tactic(auto, using(print::proofs::Pages::typing))]
fn load_lines(page: &mut Page, loaded: Result<(), Refusal>) -> Status
    ensures lines { page.new ≡ typed_all_on page.old (pick (code_of loaded == 0) [] (refused_line (code_of loaded))) }
    ensures status { digit_of result ≡ pick (code_of loaded == 0) ran_status refused_status }
{
    match loaded {
        Ok(()) => Status::Passed,
        Err(refusal) => turned_away(page, refusal),
    }
}

// The image, loaded on the host, and what is printed of that.
pub fn load(h: &mut Host, image: &[u8], out: &mut [u8]) -> Printed
    ensures { PrintsLoad (view h.old) image.now out.old result (view h.new) out.new }
{
    let loaded = image::load(h, image);
    let mut page = Page::new(out);
    let status = load_lines(&mut page, loaded);
    Printed {
        bytes: page.place(),
        status,
    }
}
