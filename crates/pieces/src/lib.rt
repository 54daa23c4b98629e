// A journal that arrives in pieces: each call runs what is at hand, as much as it is allowed. docs/HOST.md, "Journals in pieces".
#![tactic(auto)]

mod hand; // hand.rt: the bytes at hand, and their records
mod header; // header.rt: the header, in pieces
mod kept; // kept.rt: what is kept from one piece to the next

ghost use Rattle.std.specs.Prelude.{◌≡◌};
ghost use Rattle.model.specs.Pieces.{beginning, piece_refusal};
ghost use Rattle.host.specs.View.{view};
ghost use Rattle.numbers.specs.Refusals.{code_of};
ghost use Rattle.pieces.specs.Promises.{FeedsCode, Refuses};

use hand::at_hand;
use header::is_journal;
use host::Host;
use kept::{BEGUN, COUNTS, HEADER_COUNT, keep};
use numbers::Refusal;

// Two counts, and the bytes of a begun record.
pub const KEPT: usize = COUNTS + BEGUN;

// Bytes and no struct, which the C interface lends as they are: `ration_begin` and `ration_feed`.
pub type Kept = [u8; KEPT];

// How many records a call ran, and how many bytes of the piece it took.
#[derive(Clone, Copy)]
pub struct Fed {
    pub records: usize,
    pub bytes: usize,
}

// In place of a number of header bytes, once 13 was given. A number, and no Option: docs/HOST.md has this byte (`model: Pieces.stopped`).
const STOPPED: u8 = 255;

// Nothing was taken yet.
pub fn begin(k: &mut Kept)
    ensures { k.new ≡ beginning }
{
    *k = [0; KEPT];
}

// For an answer buffer of so many bytes.
fn check_piece(
    k: &Kept,
    piece: &[u8],
    allowance: usize,
    last: bool,
    room: usize,
) -> Result<(), Refusal>
    ensures { code_of result ≡ piece_refusal k.now piece.now allowance last room }
{
    if !is_journal(k, piece, last) {
        return Err(Refusal::NoJournal);
    }
    if room / steps::ANSWER < at_hand(k, piece).whole().min(allowance) {
        return Err(Refusal::NoRoom);
    }
    Ok(())
}

// The refusal, unless the state is not valid, which comes before it; 13 is remembered.
fn refuse(h: &Host, k: &mut Kept, refusal: Refusal) -> Refusal
    ensures { Refuses (view h.now) refusal k.old result k.new }
{
    if !rules::valid(h) {
        return Refusal::NotValid;
    }
    if refusal == Refusal::NoJournal {
        k[HEADER_COUNT] = STOPPED;
    }
    refusal
}

// The piece, with what is kept: at most `allowance` records are run. `last` says that the input ends with this piece.
pub fn feed(
    h: &mut Host,
    k: &mut Kept,
    piece: &[u8],
    allowance: usize,
    last: bool,
    out: &mut [u8],
) -> Result<Fed, Refusal>
    ensures { FeedsCode (view h.old) k.old piece.now allowance last out.old result (view h.new) k.new out.new }
{
    if let Err(refusal) = check_piece(k, piece, allowance, last, out.len()) {
        return Err(refuse(h, k, refusal));
    }
    let records = at_hand(k, piece).run(h, out, allowance)?.taken;
    let bytes = keep(k, piece, records);
    Ok(Fed { records, bytes })
}
