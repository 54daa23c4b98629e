// The journal as it arrives: each piece is run at once, and its lines are written at once. The buffers are fixed, and nothing limits the input.
ghost use Rattle.std.specs.Prelude.{◌≤◌, ◌<◌, length, IfOk};

use super::{Stop, put};
use host::Host;
use output::Told;
use pieces::{KEPT, Kept};
use std::io::Read;

const PIECE: usize = 4096;

// Of a piece and a begun record before it.
const RECORDS: usize = (PIECE + reader::RECORD - 1) / reader::RECORD;

const ANSWERS: usize = steps::ANSWER * RECORDS;

// The longest output of a call: a line for each record, of at most 20, 3 and 10 digits, two spaces and its end; and 67 bytes for the others.
const OUTPUT: usize = 36 * RECORDS + 67;

// A call of feed, whose lines are written before anything else is read: how many bytes of the piece were taken, and what is told with it.
fn call(
    h: &mut Host,
    k: &mut Kept,
    told: Told,
    piece: &[u8],
    last: bool,
) -> Result<(usize, Told), Stop>
    ensures { IfOk result (λ done. (done.0 ≤ length piece.now) × (0 < length piece.now → 0 < done.0)) }
{
    let mut answers = [0u8; ANSWERS];
    let mut out = [0u8; OUTPUT];
    let s = output::feed(h, k, told, piece, last, &mut answers, &mut out);
    put(&out[..s.bytes], s.status)?;
    Ok((s.taken, s.told))
}

// The piece, and again what was not taken of it.
fn offer(h: &mut Host, k: &mut Kept, mut told: Told, piece: &[u8]) -> Result<Told, Stop> {
    let mut left = piece;
    while !left.is_empty() {
        let (taken, then) = call(h, k, told, left, false)?;
        left = &left[taken..];
        told = then;
    }
    Ok(told)
}

// As much as one read gives: what is told with it, or none where the input has ended.
fn read_once(
    input: &mut impl Read,
    h: &mut Host,
    k: &mut Kept,
    told: Told,
) -> Result<Option<Told>, Stop> {
    let mut piece = [0u8; PIECE];
    match input.read(&mut piece) {
        Ok(0) => {
            call(h, k, told, &[], true)?;
            Ok(None)
        }
        Ok(n) => Ok(Some(offer(h, k, told, &piece[..n])?)),
        Err(_) => Err(Stop::UnreadInput),
    }
}

// A proved loop has to end, and nothing says that the input does.
pub(crate) fn run(input: &mut impl Read, h: &mut Host) -> Result<(), Stop> {
    let mut k: Kept = [0; KEPT];
    pieces::begin(&mut k);
    let mut told = Told {
        accepted: 0,
        refused: 0,
    };
    for _ in 0..u64::MAX {
        match read_once(input, h, &mut k, told)? {
            Some(then) => told = then,
            None => return Ok(()),
        }
    }
    Ok(())
}
