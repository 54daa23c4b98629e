// The bytes at hand: those of a begun record, followed by the piece without its header bytes.
ghost use Rattle.std.specs.Prelude.{◌≡◌, ◌++◌, ◌+◌, ◌*◌, ◌-◌, ◌≤◌, length, drop};
ghost use Rattle.model.specs.Sizes.{record_bytes, begun_most};
ghost use Rattle.model.specs.Pieces.{begun, header_part, whole_in};
ghost use Rattle.host.specs.View.{view};
ghost use Rattle.pieces.specs.Promises.{most_in, RunsHand};

use super::Kept;
use super::header::header_bytes;
use super::kept::{BEGUN, BEGUN_COUNT, COUNTS};
use host::Host;
use numbers::Refusal;
use reader::RECORD;
use steps::Ran;

#[derive(Clone, Copy)]
pub(crate) struct Hand<'a> {
    pub(crate) begun: &'a [u8],
    rest: &'a [u8],
}

pub(crate) fn at_hand<'a>(k: &'a Kept, piece: &'a [u8]) -> Hand<'a>
    ensures { (result.begun.now ≡ begun k.now) × (result.rest.now ≡ drop (header_part k.now piece.now) piece.now) }
{
    let count = usize::from(k[BEGUN_COUNT]).min(BEGUN);
    Hand {
        begun: &k[COUNTS..COUNTS + count],
        rest: &piece[header_bytes(k, piece)..],
    }
}

impl Hand<'_> {
    // Whole records at hand.
    pub(crate) fn whole(&self) -> usize
        ensures { result ≡ whole_in (length self.now.begun.now + length self.now.rest.now) }
    {
        (self.begun.len() + self.rest.len()) / RECORD
    }

    // Where the rest goes on behind n records.
    pub(crate) fn behind(&self, n: usize) -> usize
        requires { n ≤ whole_in (length self.now.begun.now + length self.now.rest.now) }
        ensures { result ≡ record_bytes * n - length self.now.begun.now }
    {
        (RECORD * n).saturating_sub(self.begun.len())
    }

    // As many records as are whole, are allowed and have room for their answers. A begun one is completed here, and judged in these bytes; the others
    // where they lie in the piece.
    pub(crate) fn run(&self, h: &mut Host, out: &mut [u8], allowance: usize) -> Result<Ran, Refusal>
        requires { length self.now.begun.now ≤ begun_most }
        ensures { let x = self.now.begun.now ++ self.now.rest.now in RunsHand (most_in allowance x out.old) (view h.old) x out.old result (view h.new) out.new }
    {
        let held = self.begun.len();
        let missing = RECORD - held;
        if held == 0 {
            return steps::run_most(h, &[], self.rest, 0, out, allowance);
        }
        if self.rest.len() < missing {
            return steps::run_most(h, &[], &[], 0, out, allowance);
        }
        let mut first = [0u8; RECORD];
        first[..held].copy_from_slice(self.begun);
        first[held..].copy_from_slice(&self.rest[..missing]);
        steps::run_most(h, &first, self.rest, missing, out, allowance)
    }
}
