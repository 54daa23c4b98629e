// new: an address is mapped to a page.
ghost use Rattle.std.specs.Prelude.{◌≡◌};
ghost use Rattle.laws.specs.Choice.{pick};
ghost use Rattle.model.specs.State.{is_page};
ghost use Rattle.host.specs.View.{view};
ghost use Rattle.acts.specs.Mapped.{shared, created};

use super::tables::{drop_line, remap};
use super::{clear_call, lose_mark};
use cache::MachinePage;
use host::{Host, Ma, Va};

// A page that some table maps elsewhere is not cached.
#[tactic(auto, unfolding(crate::specs::Mapped::shared))]
fn share(h: &mut Host, a: Va, p: MachinePage)
    ensures { view h.new ≡ shared (view h.old) a.0 p.0 }
{
    if asks::maps_away(h, p.ma, a) {
        cache::take_out_page(h, p.ma);
        lose_mark(h, p.ma);
    }
}

#[tactic(auto, unfolding(crate::specs::Mapped::created))]
fn create(h: &mut Host, a: Va, p: MachinePage)
    ensures { view h.new ≡ created (view h.old) a.0 p.0 }
{
    drop_line(h, a);
    remap(h, a, Some(p.ma));
    share(h, a, p);
    clear_call(h)
}

// Nothing where p is no page.
pub fn new(h: &mut Host, a: Va, p: Ma)
    ensures { view h.new ≡ pick (is_page p.0) (created (view h.old) a.0 p.0) (view h.old) }
{
    if let Some(page) = MachinePage::of(p) {
        create(h, a, page)
    }
}
