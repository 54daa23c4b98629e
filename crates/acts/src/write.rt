// write, write_hyper: an access, and the page holds v.
ghost use Rattle.std.specs.Prelude.{◌≡◌};
ghost use Rattle.laws.specs.Choice.{pick};
ghost use Rattle.model.specs.State.{is_page};
ghost use Rattle.model.specs.Write.{write_step};
ghost use Rattle.host.specs.View.{view};

use super::translate;
use cache::MachinePage;
use host::{Host, Ma, Va};

// Nothing where p is no page.
pub fn write(h: &mut Host, a: Va, p: Ma, v: u32)
    ensures { view h.new ≡ pick (is_page p.0) (write_step (view h.old) a.0 p.0 v) (view h.old) }
{
    if let Some(page) = MachinePage::of(p) {
        cache::access(h, a, page.ma, Some(v));
        translate(h, a, page.ma);
    }
}
