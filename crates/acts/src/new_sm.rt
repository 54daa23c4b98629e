// new_sm: the stealth address is mapped to a page.
ghost use Rattle.std.specs.Prelude.{◌≡◌};
ghost use Rattle.laws.specs.Choice.{pick};
ghost use Rattle.model.specs.State.{is_page};
ghost use Rattle.model.specs.NewSm.{new_sm_step};
ghost use Rattle.host.specs.View.{view};

use super::stealth::{LINE, STEALTH};
use super::tables::in_force;
use super::{clear_call, map, translate};
use cache::MachinePage;
use host::{Host, Ma, Va};

fn create(h: &mut Host, p: MachinePage)
    ensures { view h.new ≡ new_sm_step (view h.old) p.0 }
{
    cache::fill(h, LINE, Va(STEALTH), p.ma);
    let t = in_force(h);
    map(h, t, Va(STEALTH), Some(p.ma));
    translate(h, Va(STEALTH), p.ma);
    clear_call(h)
}

// Nothing where p is no page.
pub fn new_sm(h: &mut Host, p: Ma)
    ensures { view h.new ≡ pick (is_page p.0) (new_sm_step (view h.old) p.0) (view h.old) }
{
    if let Some(page) = MachinePage::of(p) {
        create(h, page)
    }
}
