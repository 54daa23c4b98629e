// hcall: the call is stored, and the host has control.
ghost use Rattle.std.specs.Prelude.{◌≡◌};
ghost use Rattle.model.specs.Hcall.{hcall_step};
ghost use Rattle.host.specs.View.{view};
ghost use Rattle.numbers.specs.Calls.{bytes_of};

use super::set_pending;
use host::{Call, Host};

#[tactic(auto, unfolding(model::specs::Hcall::hcall_step, host::specs::View::put_mode))]
pub fn hcall(h: &mut Host, x: Call)
    ensures { view h.new ≡ hcall_step (view h.old) (bytes_of x).number (bytes_of x).a (bytes_of x).b }
{
    let g = host::active(h);
    set_pending(h, g, x);
    host::set_mode(h, host::WAITING)
}
