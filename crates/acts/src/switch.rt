// switch: another guest is active.
ghost use Rattle.std.specs.Prelude.{◌≡◌};
ghost use Rattle.model.specs.Switch.{switch_step};
ghost use Rattle.host.specs.View.{view};

use super::stealth::{load_stealth, save_stealth};
use host::{Guest, Host};

#[tactic(auto, unfolding(model::specs::Switch::switch_step, host::specs::View::put_active))]
pub fn switch(h: &mut Host, g: Guest)
    ensures { view h.new ≡ switch_step (view h.old) g.0 }
{
    save_stealth(h);
    host::set_active(h, g);
    load_stealth(h)
}
