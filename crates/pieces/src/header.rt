// The header, as much of it as a piece has.
ghost use Rattle.std.specs.Prelude.{◌≡◌};
ghost use Rattle.model.specs.Pieces.{header_part, is_journal};

use super::Kept;
use super::kept::{BEGUN, BEGUN_COUNT, HEADER_COUNT};
use reader::HEADER;

const HEADER_BYTES: [u8; HEADER] = *b"RPJ\x01\x00\x00\x00\x00";

// How many bytes of the piece are the header's.
pub(crate) fn header_bytes(k: &Kept, piece: &[u8]) -> usize
    ensures { result ≡ header_part k.now piece.now }
{
    HEADER
        .saturating_sub(usize::from(k[HEADER_COUNT]))
        .min(piece.len())
}

// What is kept, and the piece, may be a journal's.
pub(crate) fn is_journal(k: &Kept, piece: &[u8], last: bool) -> bool
    ensures { result ≡ is_journal k.now piece.now last }
{
    let taken = usize::from(k[HEADER_COUNT]);
    if taken > HEADER || usize::from(k[BEGUN_COUNT]) > BEGUN {
        return false;
    }
    let end = taken + header_bytes(k, piece);
    if last && end < HEADER {
        return false;
    }
    piece.starts_with(&HEADER_BYTES[taken..end])
}
