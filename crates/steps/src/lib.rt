// An action on the host's bytes: judged, done or refused, and answered.
#![tactic(auto)]

mod most; // most.rt: the run over at most so many records, the first of them put together elsewhere
mod part; // part.rt: records that lie one after another, and the bytes of their answers
mod perform; // perform.rt: what an action does, and what it answers

ghost use Rattle.host.specs.View.{view};
ghost use Rattle.asks.specs.Actions.{action_from};
ghost use Rattle.steps.specs.Acting.{acted, judged};
ghost use Rattle.steps.specs.Promises.{Gives, Steps};

use host::Host;
pub use most::{run, run_most};
use numbers::Refusal;
pub use part::{ANSWER, ANSWER_VALUE, by_number, put_answer};
use perform::perform;
use records::Action;

// of a run: how many records were taken, and how many of these accepted
#[derive(Clone, Copy)]
pub struct Ran {
    pub taken: usize,
    pub accepted: usize,
}

// Checks from 3 on, and the step.
#[tactic(auto, using(crate::proofs::Judging::acted_refused, crate::proofs::Judging::acted_done))]
fn act(h: &mut Host, x: Action) -> Result<u32, Refusal>
    ensures { Gives (acted (view h.old) (action_from x)) result (view h.new) }
{
    asks::check(h, x)?;
    Ok(perform(h, x))
}

// The bytes of a record, judged where they lie, on a state that is taken for valid.
#[tactic(auto, using(crate::proofs::Judging::judged_bad))]
fn judge(h: &mut Host, bytes: &[u8]) -> Result<u32, Refusal>
    ensures { Gives (judged (view h.old) bytes.now) result (view h.new) }
{
    let x = records::decode(bytes).ok_or(Refusal::NoRecord)?;
    act(h, x)
}

// The step: any bytes on any state.
#[tactic(auto, using(crate::proofs::Judging::step_refused))]
pub fn step(h: &mut Host, bytes: &[u8]) -> Result<u32, Refusal>
    ensures { Steps (view h.old) bytes.now result (view h.new) }
{
    if !rules::valid(h) {
        return Err(Refusal::NotValid);
    }
    judge(h, bytes)
}
