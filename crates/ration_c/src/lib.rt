// What ration does for programs in C or Rust, exported under the same names with the same promises: `tools/archive` makes libration.a of it. Nothing is
// decided here.
#![tactic(auto)]

ghost use Rattle.std.specs.Prelude.{◌≡◌};
ghost use Rattle.laws.specs.Search.{count_below};
ghost use Rattle.laws.specs.Bits.{marks};
ghost use Rattle.model.specs.Sizes.{pages, answer_bytes, kept_bytes};
ghost use Rattle.model.specs.Fresh.{fresh};
ghost use Rattle.model.specs.Valid.{valid?};
ghost use Rattle.model.specs.Image.{image_bytes};
ghost use Rattle.model.specs.Pieces.{beginning};
ghost use Rattle.host.specs.View.{bytes as state_bytes, view};
ghost use Rattle.ration.specs.Promises.{report_size, StartsBytes, StepsBytes, RunsBytes, LoadsBytes, SavesBytes, OpensBytes, ChecksBytes, FeedsBytes};

use host::Host;
use pieces::Kept;
use ration::REPORT;

// The bytes of a state.
#[unsafe(no_mangle)]
pub extern "C" fn ration_size() -> usize
    ensures { result ≡ state_bytes }
{
    ration::ration_size()
}

// The bytes of an answer.
#[unsafe(no_mangle)]
pub extern "C" fn ration_answer_size() -> usize
    ensures { result ≡ answer_bytes }
{
    ration::ration_answer_size()
}

// The bytes of a report.
#[unsafe(no_mangle)]
pub extern "C" fn ration_report_size() -> usize
    ensures { result ≡ report_size }
{
    ration::ration_report_size()
}

// The bytes of an image.
#[unsafe(no_mangle)]
pub extern "C" fn ration_image_size() -> usize
    ensures { result ≡ image_bytes }
{
    ration::ration_image_size()
}

// The bytes that are kept from one piece of a journal to the next.
#[unsafe(no_mangle)]
pub extern "C" fn ration_kept_size() -> usize
    ensures { result ≡ kept_bytes }
{
    ration::ration_kept_size()
}

// The fresh machine, whatever the bytes were.
#[unsafe(no_mangle)]
pub extern "C" fn ration_fresh(h: &mut Host)
    ensures { view h.new ≡ fresh }
{
    ration::ration_fresh(h);
}

// The fresh machine with a policy, whatever the bytes were: 0, or 1 for a byte that is no policy.
#[unsafe(no_mangle)]
pub extern "C" fn ration_fresh_with(h: &mut Host, policy: u8) -> u8
    ensures { StartsBytes (view h.old) policy result (view h.new) }
{
    ration::ration_fresh_with(h, policy)
}

// The policy of the state.
#[unsafe(no_mangle)]
pub extern "C" fn ration_policy(h: &Host) -> u8
    ensures { result ≡ (view h.now).shape.policy }
{
    ration::ration_policy(h)
}

// Whether the state is valid, by the eleven rules.
#[unsafe(no_mangle)]
pub extern "C" fn ration_valid(h: &Host) -> bool
    ensures { result ≡ valid? (view h.now) }
{
    ration::ration_valid(h)
}

// How many pages the map marks as free.
#[unsafe(no_mangle)]
pub extern "C" fn ration_free_pages(h: &Host) -> u32
    ensures { result ≡ count_below pages (marks (view h.now).shape.pages.free) }
{
    ration::ration_free_pages(h)
}

// A record, judged and done or refused; its answer's eight bytes.
#[unsafe(no_mangle)]
pub extern "C" fn ration_step(h: &mut Host, bytes: &[u8], answer: &mut [u8; steps::ANSWER])
    ensures { StepsBytes (view h.old) bytes.now (view h.new) answer.new }
{
    ration::ration_step(h, bytes, answer);
}

// A journal, run or refused; its answers, and its report's twenty bytes.
#[unsafe(no_mangle)]
pub extern "C" fn ration_run(
    h: &mut Host,
    journal: &[u8],
    answers: &mut [u8],
    report: &mut [u8; REPORT],
)
    ensures { RunsBytes (view h.old) journal.now answers.old (view h.new) answers.new report.new }
{
    ration::ration_run(h, journal, answers, report);
}

// The state, saved to the lent bytes as its image: 0, or the refusal's number.
#[unsafe(no_mangle)]
pub extern "C" fn ration_save(h: &Host, image: &mut [u8]) -> u8
    ensures { SavesBytes (view h.now) image.old result image.new }
{
    ration::ration_save(h, image)
}

// The state that the image holds, loaded whatever the state was: 0, or the refusal's number.
#[unsafe(no_mangle)]
pub extern "C" fn ration_load(h: &mut Host, image: &[u8]) -> u8
    ensures { LoadsBytes (view h.old) image.now result (view h.new) }
{
    ration::ration_load(h, image)
}

// The state that the image holds, whatever that is, for a state that is to be checked: 0, or 16 and the state stays.
#[unsafe(no_mangle)]
pub extern "C" fn ration_open(h: &mut Host, image: &[u8]) -> u8
    ensures { OpensBytes (view h.old) image.now result (view h.new) }
{
    ration::ration_open(h, image)
}

// What a check says of a rule: 0 it holds, 1 it is broken, 2 there is no such rule; and the first part and place where it is broken, 0 without one.
#[unsafe(no_mangle)]
pub extern "C" fn ration_broken(h: &Host, rule: u8, part: &mut u8, place: &mut u16) -> u8
    ensures { ChecksBytes (view h.now) rule result part.new place.new }
{
    ration::ration_broken(h, rule, part, place)
}

// No byte of a journal was taken yet, whatever was kept.
#[unsafe(no_mangle)]
pub extern "C" fn ration_begin(kept: &mut Kept)
    ensures { kept.new ≡ beginning }
{
    ration::ration_begin(kept);
}

// A piece of a journal, run as far as it is allowed, or refused: the number, and how many records it ran and bytes it took, 0 where it is refused.
#[unsafe(no_mangle)]
pub extern "C" fn ration_feed(
    h: &mut Host,
    kept: &mut Kept,
    piece: &[u8],
    allowance: usize,
    last: bool,
    answers: &mut [u8],
    records: &mut usize,
    bytes: &mut usize,
) -> u8
    ensures { FeedsBytes (view h.old) kept.old piece.now allowance last answers.old result (view h.new) kept.new answers.new records.new bytes.new }
{
    ration::ration_feed(h, kept, piece, allowance, last, answers, records, bytes)
}
