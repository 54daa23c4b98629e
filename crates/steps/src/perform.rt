// What an action does on the host's bytes, and what it answers: a read the value of its page, every other action 0.
ghost use Rattle.std.specs.Prelude.{◌≡◌};
ghost use Rattle.model.specs.State.{mapped, here};
ghost use Rattle.model.specs.Records as model;
ghost use Rattle.model.specs.Write.{write_step};
ghost use Rattle.model.specs.NewSm.{new_sm_step};
ghost use Rattle.model.specs.Unpin.{unpin_step};
ghost use Rattle.host.specs.View.{view};
ghost use Rattle.numbers.specs.Lead.{toward};
ghost use Rattle.acts.specs.Mapped.{created};
ghost use Rattle.asks.specs.Actions.{action_from};
ghost use Rattle.steps.specs.Acting.{on_page};
ghost use Rattle.steps.specs.Promises.{Performs};

use host::{Host, Ma, Pa, Va};
use records::Action;

// Where an address leads: by the table in force. The TLB is not asked, so no old translation is followed.
fn led(h: &Host, a: Va) -> Option<Ma>
    ensures { result ≡ toward (mapped (view h.now).shape a.0) }
{
    asks::mapped(h, a)
}

#[tactic(auto, unfolding(crate::specs::Acting::performed, crate::specs::Acting::answered))]
fn read(h: &mut Host, a: Va) -> u32
    ensures { Performs (view h.old) (model.read a.0) result (view h.new) }
{
    match led(h, a) {
        Some(p) => acts::read::read(h, a, p),
        None => 0,
    }
}

fn write(h: &mut Host, a: Va, v: u32)
    ensures { view h.new ≡ on_page (mapped (view h.old).shape a.0) (λ p. write_step (view h.old) a.0 p v) (view h.old) }
{
    if let Some(p) = led(h, a) {
        acts::write::write(h, a, p, v);
    }
}

fn new(h: &mut Host, a: Va, b: Pa)
    ensures { view h.new ≡ on_page (here (view h.old).shape b.0) (created (view h.old) a.0) (view h.old) }
{
    if let Some(p) = asks::here(h, b) {
        acts::new::new(h, a, p);
    }
}

fn new_sm(h: &mut Host, b: Pa)
    ensures { view h.new ≡ on_page (here (view h.old).shape b.0) (new_sm_step (view h.old)) (view h.old) }
{
    if let Some(p) = asks::here(h, b) {
        acts::new_sm::new_sm(h, p);
    }
}

fn unpin(h: &mut Host, b: Pa)
    ensures { view h.new ≡ on_page (here (view h.old).shape b.0) (unpin_step (view h.old) b.0) (view h.old) }
{
    if let Some(p) = asks::here(h, b) {
        acts::unpin::unpin(h, b, p);
    }
}

// A read answers the value of its page, every other action 0.
#[tactic(auto, unfolding(crate::specs::Acting::performed, crate::specs::Acting::answered))]
pub(crate) fn perform(h: &mut Host, x: Action) -> u32
    ensures { Performs (view h.old) (action_from x) result (view h.new) }
{
    match x {
        Action::Silent => {}
        Action::Read(a) | Action::ReadHyper(a) => return read(h, a),
        Action::Write(a, v) | Action::WriteHyper(a, v) => write(h, a, v),
        Action::New(a, b) => new(h, a, b),
        Action::NewSm(b) => new_sm(h, b),
        Action::Del(a) => acts::del::del(h, a),
        Action::Switch(g) => acts::switch::switch(h, g),
        Action::Lswitch(b) => acts::lswitch::lswitch(h, b),
        Action::Hcall(c) => acts::hcall::hcall(h, c),
        Action::RetCtrl => acts::ret_ctrl::ret_ctrl(h),
        Action::Chmod => acts::chmod::chmod(h),
        Action::Pin(b, k) => acts::pin::pin(h, b, k),
        Action::Unpin(b) => unpin(h, b),
        Action::Drop(g) => acts::drop::drop(h, g),
    }
    0
}
