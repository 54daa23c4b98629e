// The run over at most so many records: check 1 once, then one that was put together elsewhere, where there is one, and those that lie one after
// another.
ghost use Rattle.std.specs.Prelude.{◌≡◌, ◌*◌, ◌-◌, ◌/◌, ◌≤◌, length};
ghost use Rattle.model.specs.Sizes.{record_bytes, answer_bytes};
ghost use Rattle.host.specs.View.{view};
ghost use Rattle.steps.specs.Parts.{together_count, most_of, Runs, RunsMost};
ghost use Rattle.steps.specs.Turns.{JudgesFirst, PlaysJoined};

use super::part::{ANSWER, play, store};
use super::{Ran, judge};
use host::Host;
use numbers::Refusal;

// The record, judged where it lies, its answer the first; 1 if it is done.
fn judge_first(h: &mut Host, first: &[u8], out: &mut [u8]) -> usize
    requires { answer_bytes ≤ length out.old }
    ensures { JudgesFirst (view h.old) first.now out.old result (view h.new) out.new }
{
    let a = judge(h, first);
    store(out, 0, a)
}

fn play_joined(
    h: &mut Host,
    first: &[u8],
    j: &[u8],
    start: usize,
    out: &mut [u8],
    n: usize,
) -> usize
    requires records { record_bytes * (n - together_count first.now) ≤ length j.now - start }
    requires room { answer_bytes * n ≤ length out.old }
    ensures { PlaysJoined (view h.old) first.now j.now start n out.old result (view h.new) out.new }
{
    if first.is_empty() {
        return play(h, j, start, out, n);
    }
    if n == 0 {
        return 0;
    }
    let counted = judge_first(h, first, out);
    let accepted = play(h, j, start, &mut out[ANSWER..], n - 1);
    counted + accepted
}

// One record, unless it has no bytes.
fn together(first: &[u8]) -> usize
    ensures { (result ≡ together_count first.now) × (result ≤ 1) }
{
    usize::from(!first.is_empty())
}

fn whole(j: &[u8], start: usize) -> usize
    ensures { result ≡ (length j.now - start) / record_bytes }
{
    j.len().saturating_sub(start) / reader::RECORD
}

// How many: no more than are allowed, than there are, and than have room for their answers.
fn most(n: usize, first: &[u8], j: &[u8], start: usize, out: &[u8]) -> usize
    ensures { result ≡ most_of n first.now j.now start out.now }
{
    let there = together(first) + whole(j, start);
    n.min(out.len() / ANSWER).min(there)
}

// The record that was put together, unless it has no bytes, and those of j from `start` on are run, at most n of them.
#[tactic(auto, using(crate::proofs::Joining::most_refused))]
pub fn run_most(
    h: &mut Host,
    first: &[u8],
    j: &[u8],
    start: usize,
    out: &mut [u8],
    n: usize,
) -> Result<Ran, Refusal>
    ensures { RunsMost n (view h.old) first.now j.now start out.old result (view h.new) out.new }
{
    if !rules::valid(h) {
        return Err(Refusal::NotValid);
    }
    let taken = most(n, first, j, start, out);
    let accepted = play_joined(h, first, j, start, out, taken);
    Ok(Ran { taken, accepted })
}

// The records from `start` on are run, as many as are whole and have room for their answers.
#[tactic(auto, using(crate::proofs::Joining::runs_all))]
pub fn run(h: &mut Host, j: &[u8], start: usize, out: &mut [u8]) -> Result<Ran, Refusal>
    ensures { Runs (view h.old) j.now start out.old result (view h.new) out.new }
{
    run_most(h, &[], j, start, out, usize::MAX)
}
