// chmod: the guest runs.
ghost use Rattle.std.specs.Prelude.{◌≡◌};
ghost use Rattle.model.specs.Chmod.{chmod_step};
ghost use Rattle.host.specs.View.{view};

use host::Host;

#[tactic(auto, unfolding(model::specs::Chmod::chmod_step, host::specs::View::put_mode))]
pub fn chmod(h: &mut Host)
    ensures { view h.new ≡ chmod_step (view h.old) }
{
    host::set_mode(h, host::RUNNING)
}
