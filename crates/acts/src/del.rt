// del: an address is unmapped.
ghost use Rattle.std.specs.Prelude.{◌≡◌};
ghost use Rattle.host.specs.View.{view};
ghost use Rattle.acts.specs.Mapped.{deleted};

use super::clear_call;
use super::tables::{drop_line, remap};
use host::{Host, Va};

#[tactic(auto, unfolding(crate::specs::Mapped::deleted))]
pub fn del(h: &mut Host, a: Va)
    ensures { view h.new ≡ deleted (view h.old) a.0 }
{
    drop_line(h, a);
    remap(h, a, None);
    clear_call(h)
}
