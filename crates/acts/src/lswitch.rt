// lswitch: another table of the active guest is current.
ghost use Rattle.std.specs.Prelude.{◌≡◌};
ghost use Rattle.model.specs.Parts.{shaped, set_current};
ghost use Rattle.model.specs.Lswitch.{lswitch_step};
ghost use Rattle.host.specs.View.{view};

use super::clear_call;
use super::stealth::{load_stealth, save_stealth};
use host::{Host, Pa};

#[tactic(auto, unfolding(host::specs::View::put))]
fn set_table(h: &mut Host, a: Pa)
    ensures { view h.new ≡ shaped (view h.old) (set_current (view h.old).shape a.0) }
{
    let g = host::active(h);
    host::set_current(h, g, a)
}

#[tactic(auto, unfolding(model::specs::Lswitch::lswitch_step))]
pub fn lswitch(h: &mut Host, a: Pa)
    ensures { view h.new ≡ lswitch_step (view h.old) a.0 }
{
    save_stealth(h);
    set_table(h, a);
    clear_call(h);
    load_stealth(h)
}
