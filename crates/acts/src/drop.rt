// drop: the host declines a guest's call, the active one's or another's.
ghost use Rattle.std.specs.Prelude.{◌≡◌};
ghost use Rattle.model.specs.Drop.{drop_step};
ghost use Rattle.host.specs.View.{view};

use super::set_pending;
use host::{Call, Guest, Host};

#[tactic(auto, unfolding(model::specs::Drop::drop_step))]
pub fn drop(h: &mut Host, g: Guest)
    ensures { view h.new ≡ drop_step (view h.old) g.0 }
{
    set_pending(h, g, Call::None)
}
