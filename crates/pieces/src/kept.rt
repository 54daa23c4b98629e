// What is kept from one piece to the next: two counts, and the bytes of a begun record.
ghost use Rattle.std.specs.Prelude.{◌≡◌, ◌+◌, ◌<◌, ◌≤◌, length};
ghost use Rattle.model.specs.Sizes.{begun_most, byte_bound};
ghost use Rattle.model.specs.Pieces.{at_hand, whole_in, bytes_taken, kept_after};
ghost use Rattle.pieces.specs.Promises.{holds};

use super::Kept;
use super::hand::at_hand;
use super::header::header_bytes;
use reader::RECORD;

// Where each count stands, and where the bytes of a begun record start.
pub(crate) const HEADER_COUNT: usize = 0;

pub(crate) const BEGUN_COUNT: usize = 1;

pub(crate) const COUNTS: usize = 2;

// The most bytes of a begun record.
pub(crate) const BEGUN: usize = RECORD - 1;

// So many header bytes, and of a begun record those that stay, with others behind them.
fn hold(k: &mut Kept, header: usize, stays: usize, more: &[u8])
    requires header { header < byte_bound }
    requires fits { stays + length more.now ≤ begun_most }
    ensures { k.new ≡ holds k.old header stays more.now }
{
    let count = stays + more.len();
    // Put together apart: copied from one lent part to another they would be moved by memmove, which the archive for C asks of nobody.
    let mut begun = [0u8; BEGUN];
    begun[..stays].copy_from_slice(&k[COUNTS..COUNTS + stays]);
    begun[stays..count].copy_from_slice(more);
    k[HEADER_COUNT] = header as u8;
    k[BEGUN_COUNT] = count as u8;
    k[COUNTS..].copy_from_slice(&begun);
}

// After n records: what is kept, and how many bytes of the piece are taken.
pub(crate) fn keep(k: &mut Kept, piece: &[u8], n: usize) -> usize
    requires { n ≤ whole_in (length (at_hand k.old piece.now)) }
    ensures { (result ≡ bytes_taken k.old piece.now n) × (k.new ≡ kept_after k.old piece.now n) }
{
    let start = header_bytes(k, piece);
    let header = usize::from(k[HEADER_COUNT]) + start;
    let hand = at_hand(k, piece);
    let from = start + hand.behind(n);
    let end = if n < hand.whole() { from } else { piece.len() };
    let stays = if n == 0 { hand.begun.len() } else { 0 };
    hold(k, header, stays, &piece[from..end]);
    end
}
