// ret_ctrl: the host has control.
ghost use Rattle.std.specs.Prelude.{◌≡◌};
ghost use Rattle.model.specs.RetCtrl.{ret_ctrl_step};
ghost use Rattle.host.specs.View.{view};

use host::Host;

#[tactic(auto, unfolding(model::specs::RetCtrl::ret_ctrl_step, host::specs::View::put_mode))]
pub fn ret_ctrl(h: &mut Host)
    ensures { view h.new ≡ ret_ctrl_step (view h.old) }
{
    host::set_mode(h, host::WAITING)
}
