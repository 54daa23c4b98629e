// unpin: a page of the active guest is given back.
ghost use Rattle.std.specs.Prelude.{◌≡◌};
ghost use Rattle.laws.specs.Choice.{pick};
ghost use Rattle.model.specs.State.{is_page};
ghost use Rattle.model.specs.Unpin.{unpin_step};
ghost use Rattle.host.specs.View.{view};

use super::clear_call;
use super::parts::renew;
use cache::MachinePage;
use host::{Host, KIND_NONE, Ma, OWNER_NONE, Pa};

#[tactic(auto, using(crate::proofs::Pinning::given_back_law))]
fn give_back(h: &mut Host, a: Pa, p: MachinePage)
    ensures { view h.new ≡ unpin_step (view h.old) a.0 p.0 }
{
    let g = host::active(h);
    renew(h, p.ma, OWNER_NONE, KIND_NONE);
    host::set_physical(h, g, a, None);
    host::mark_free(h, p.ma);
    clear_call(h)
}

// MachinePage p, which stands at the active guest's a; nothing where p is no page.
pub fn unpin(h: &mut Host, a: Pa, p: Ma)
    ensures { view h.new ≡ pick (is_page p.0) (unpin_step (view h.old) a.0 p.0) (view h.old) }
{
    if let Some(page) = MachinePage::of(p) {
        give_back(h, a, page)
    }
}
