// The host for programs in C or Rust: functions on lent bytes alone, none of which asks anything of the bytes. The crate ration_c exports them, and
// include/ration.h says what it asks of the pointers.
#![tactic(auto)]

mod report; // report.rt: the bytes of a report

ghost use Rattle.std.specs.Prelude.{◌≡◌, ◌<◌, ◌≤◌, IfOk, IfErr};
ghost use Rattle.laws.specs.Search.{count_below};
ghost use Rattle.laws.specs.Bits.{marks};
ghost use Rattle.model.specs.Sizes.{pages, policies, answer_bytes, kept_bytes};
ghost use Rattle.model.specs.Fresh.{fresh};
ghost use Rattle.model.specs.Valid.{valid?};
ghost use Rattle.model.specs.Image.{image_bytes};
ghost use Rattle.model.specs.Pieces.{beginning};
ghost use Rattle.host.specs.View.{bytes as state_bytes, view};
ghost use Rattle.host.specs.Policies.{policy_number};
ghost use Rattle.numbers.specs.Refusals.{code_of};
ghost use Rattle.numbers.specs.declared.refusal.Refusal.TheVariants.{NotValid};
ghost use Rattle.ration.specs.Promises.{report_size, StartsBytes, StepsBytes, RunsBytes, LoadsBytes, SavesBytes, OpensBytes, ChecksBytes, FeedsBytes};

use host::{Host, WritePolicy};
use numbers::{Refusal, code_of};
use pieces::{Fed, Kept};
pub use report::REPORT;
use report::put_report;

// What a refused piece has.
const NOTHING: Fed = Fed {
    records: 0,
    bytes: 0,
};

// The bytes of a state.
pub fn ration_size() -> usize
    ensures { result ≡ state_bytes }
{
    host::SIZE
}

// The bytes of an answer.
pub fn ration_answer_size() -> usize
    ensures { result ≡ answer_bytes }
{
    steps::ANSWER
}

// The bytes of a report.
pub fn ration_report_size() -> usize
    ensures { result ≡ report_size }
{
    REPORT
}

// The bytes of an image.
pub fn ration_image_size() -> usize
    ensures { result ≡ image_bytes }
{
    image::SIZE
}

// The bytes that are kept from one piece of a journal to the next.
pub fn ration_kept_size() -> usize
    ensures { result ≡ kept_bytes }
{
    pieces::KEPT
}

// The fresh machine, whatever the bytes were.
pub fn ration_fresh(h: &mut Host)
    ensures { view h.new ≡ fresh }
{
    host::fresh(h);
}

fn policy_of(byte: u8) -> Result<WritePolicy, Refusal>
    ensures policy { IfOk result (λ p. (byte < policies) × (policy_number p ≡ byte)) }
    ensures other { IfErr result (λ e. (policies ≤ byte) × (e ≡ NotValid)) }
{
    match byte {
        host::WRITE_BACK => Ok(WritePolicy::Back),
        host::WRITE_THROUGH => Ok(WritePolicy::Through),
        _ => Err(Refusal::NotValid),
    }
}

fn start(h: &mut Host, policy: u8) -> Result<(), Refusal>
    ensures { StartsBytes (view h.old) policy (code_of result) (view h.new) }
{
    host::fresh_with(h, policy_of(policy)?);
    Ok(())
}

// The fresh machine with a policy, whatever the bytes were: 0, or 1 for a byte that is no policy.
pub fn ration_fresh_with(h: &mut Host, policy: u8) -> u8
    ensures { StartsBytes (view h.old) policy result (view h.new) }
{
    code_of(start(h, policy))
}

// The policy of the state.
pub fn ration_policy(h: &Host) -> u8
    ensures { result ≡ (view h.now).shape.policy }
{
    host::policy(h)
}

// Whether the state is valid, by the eleven rules.
pub fn ration_valid(h: &Host) -> bool
    ensures { result ≡ valid? (view h.now) }
{
    rules::valid(h)
}

// How many pages the map marks as free.
pub fn ration_free_pages(h: &Host) -> u32
    ensures { result ≡ count_below pages (marks (view h.now).shape.pages.free) }
{
    host::free_pages(h)
}

// A record, judged and done or refused; its answer's eight bytes.
pub fn ration_step(h: &mut Host, bytes: &[u8], answer: &mut [u8; steps::ANSWER])
    ensures { StepsBytes (view h.old) bytes.now (view h.new) answer.new }
{
    steps::put_answer(answer, steps::by_number(steps::step(h, bytes)));
}

// A journal, run or refused; its answers, and its report's twenty bytes.
pub fn ration_run(h: &mut Host, journal: &[u8], answers: &mut [u8], report: &mut [u8; REPORT])
    ensures { RunsBytes (view h.old) journal.now answers.old (view h.new) answers.new report.new }
{
    put_report(report, journal::run(h, journal, answers));
}

// The state, saved to the lent bytes as its image: 0, or the refusal's number.
pub fn ration_save(h: &Host, image: &mut [u8]) -> u8
    ensures { SavesBytes (view h.now) image.old result image.new }
{
    code_of(image::save(h, image))
}

// The state that the image holds, loaded whatever the state was: 0, or the refusal's number.
pub fn ration_load(h: &mut Host, image: &[u8]) -> u8
    ensures { LoadsBytes (view h.old) image.now result (view h.new) }
{
    code_of(image::load(h, image))
}

// The state that the image holds, whatever that is, for a state that is to be checked: 0, or 16 and the state stays.
pub fn ration_open(h: &mut Host, image: &[u8]) -> u8
    ensures { OpensBytes (view h.old) image.now result (view h.new) }
{
    code_of(image::open(h, image))
}

// What a check says of a rule: 0 it holds, 1 it is broken, 2 there is no such rule; and the first part and place where it is broken, 0 without one.
pub fn ration_broken(h: &Host, rule: u8, part: &mut u8, place: &mut u16) -> u8
    ensures { ChecksBytes (view h.now) rule result part.new place.new }
{
    let f = broken::first_broken(h, rule);
    *part = broken::part_of(f);
    *place = broken::place_of(f);
    broken::number_of(f)
}

// No byte of a journal was taken yet, whatever was kept.
pub fn ration_begin(kept: &mut Kept)
    ensures { kept.new ≡ beginning }
{
    pieces::begin(kept);
}

// A piece of a journal, run as far as it is allowed, or refused: the number, and how many records it ran and bytes it took, 0 where it is refused.
pub fn ration_feed(
    h: &mut Host,
    kept: &mut Kept,
    piece: &[u8],
    allowance: usize,
    last: bool,
    answers: &mut [u8],
    records: &mut usize,
    bytes: &mut usize,
) -> u8
    ensures { FeedsBytes (view h.old) kept.old piece.now allowance last answers.old result (view h.new) kept.new answers.new records.new bytes.new }
{
    let (number, fed) = match pieces::feed(h, kept, piece, allowance, last, answers) {
        Ok(fed) => (0, fed),
        Err(refusal) => (u8::from(refusal), NOTHING),
    };
    *records = fed.records;
    *bytes = fed.bytes;
    number
}
