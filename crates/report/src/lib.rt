// What a check prints: a line for each rule of a host, or of the host that an image holds, and the status that goes with it. docs/HOST.md, "Checking".
#![tactic(auto)]

ghost use Rattle.std.specs.Prelude.{◌≡◌};
ghost use Rattle.print.specs.Text.{page, typed_all};
ghost use Rattle.print.specs.Pages.{typed_all_on};
ghost use Rattle.host.specs.View.{view};
ghost use Rattle.broken.specs.Findings.{finding_from};
ghost use Rattle.print.specs.Status.{digit_of};
ghost use Rattle.report.specs.Report.{finding_line, no_image_line, state_lines, state_status, broken_status};
ghost use Rattle.report.specs.Promises.{ReportsHost, ReportsImage};

use broken::Finding;
use host::Host;
use numbers::Refusal;
use print::{Page, Printed, Status};

const RULES: u8 = 11;

// The bytes of the longest report.
pub const SIZE: usize = RULES as usize * words::LONGEST;

const LINE_END: u8 = b'\n';

// ---- lines

#[tactic(auto, using(print::proofs::Pages::typing))]
fn finding_line(page: &mut Page, rule: u8, f: Finding)
    ensures { page.new ≡ typed_all_on page.old (finding_line rule (finding_from f)) }
{
    match f {
        Finding::Holds => words::holds_line(page, rule),
        Finding::Broken(part, place) => words::broken_line(page, rule, part, place),
        Finding::NoRule => {}
    }
}

// Every rule is gone through, whatever the others say.
fn state_lines(page: &mut Page, h: &Host) -> Status
    ensures { (page.new ≡ typed_all_on page.old (state_lines (view h.now))) × (digit_of result ≡ state_status (view h.now)) }
{
    let mut all = true;
    for rule in 1..=RULES {
        let f = broken::first_broken(h, rule);
        all &= broken::is_holds(f);
        finding_line(page, rule, f);
    }
    if all {
        Status::Passed
    } else {
        Status::TurnedAway
    }
}

// The number of what is no image, behind its word.
#[tactic(auto, using(print::proofs::Pages::typing))]
fn no_image_line(page: &mut Page)
    ensures { page.new ≡ typed_all_on page.old no_image_line }
{
    page.text("refused ");
    page.number(u8::from(Refusal::NotImage) as u64);
    page.byte(LINE_END);
}

// ---- reports

#[tactic(auto, unfolding(print::specs::Pages::typed_all_on))]
pub fn of_host(h: &Host, out: &mut [u8]) -> Printed
    ensures { ReportsHost (view h.now) out.old result out.new }
{
    let mut page = Page::new(out);
    let status = state_lines(&mut page, h);
    Printed {
        bytes: page.place(),
        status,
    }
}

#[tactic(auto, unfolding(print::specs::Pages::typed_all_on))]
fn of_no_image(out: &mut [u8]) -> Printed
    ensures { (page out.new result.bytes ≡ typed_all (page out.old 0) no_image_line) × (digit_of result.status ≡ broken_status) }
{
    let mut page = Page::new(out);
    no_image_line(&mut page);
    Printed {
        bytes: page.place(),
        status: Status::TurnedAway,
    }
}

// The image is opened, not loaded: its host may be anything.
pub fn of_image(image: &[u8], out: &mut [u8]) -> Printed
    ensures { ReportsImage image.now out.old result out.new }
{
    let mut h: Host = [0; host::SIZE];
    match image::open(&mut h, image) {
        Ok(()) => of_host(&h, out),
        Err(_) => of_no_image(out),
    }
}
