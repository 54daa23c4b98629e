// The small parts that steps are made of.
ghost use Rattle.std.specs.Prelude.{◌≡◌, eqb, Some, None};
ghost use Rattle.laws.specs.Choice.{pick, at};
ghost use Rattle.model.specs.Sizes.{slot_of};
ghost use Rattle.model.specs.State.{is_page};
ghost use Rattle.model.specs.Parts.{shaped, set_entry, lose_mark, set_call, clear_call, set_slot, translate, forget, emptied};
ghost use Rattle.host.specs.View.{view};
ghost use Rattle.numbers.specs.Lead.{held_of};
ghost use Rattle.numbers.specs.Calls.{bytes_of};
ghost use Rattle.acts.specs.Pinned.{renewed};

use cache::MachinePage;
use host::{Call, Guest, Host, Ma, Va};

// ---- pages

// Table t leads from address a to what l says.
#[tactic(auto, unfolding(host::specs::View::put))]
pub fn map(h: &mut Host, t: Ma, a: Va, l: Option<Ma>)
    ensures { view h.new ≡ shaped (view h.old) (set_entry (view h.old).shape t.0 a.0 (held_of l)) }
{
    host::set_entry(h, t, a, l)
}

#[tactic(auto, unfolding(host::specs::View::put))]
pub fn lose_mark(h: &mut Host, p: Ma)
    ensures { view h.new ≡ shaped (view h.old) (lose_mark (view h.old).shape p.0) }
{
    host::set_cacheable(h, p, 0)
}

// MachinePage p has owner o and kind k, is cacheable and holds 0.
#[tactic(auto, unfolding(crate::specs::Pinned::renewed))]
pub(crate) fn renew(h: &mut Host, p: Ma, o: u8, k: u8)
    ensures { view h.new ≡ renewed (view h.old) p.0 o k }
{
    host::set_owner(h, p, o);
    host::set_kind(h, p, k);
    host::set_cacheable(h, p, host::CACHEABLE);
    host::set_memory(h, p, 0)
}

// ---- calls

// The pending call of guest g is x.
#[tactic(auto, unfolding(host::specs::Calls::put_call, host::specs::View::put))]
pub fn set_pending(h: &mut Host, g: Guest, x: Call)
    ensures { view h.new ≡ shaped (view h.old) (set_call (view h.old).shape g.0 (bytes_of x).number (bytes_of x).a (bytes_of x).b) }
{
    host::set_pending(h, g, x)
}

// The active guest's.
pub fn clear_call(h: &mut Host)
    ensures { view h.new ≡ shaped (view h.old) (clear_call (view h.old).shape) }
{
    let g = host::active(h);
    set_pending(h, g, Call::None)
}

// ---- the TLB

#[tactic(auto, unfolding(host::specs::View::put))]
fn set_slot(h: &mut Host, i: usize, a: Va, l: Option<Ma>)
    ensures { view h.new ≡ shaped (view h.old) (set_slot (view h.old).shape i a.0 (held_of l)) }
{
    host::set_slot_address(h, i, a);
    host::set_slot_page(h, i, l);
}

fn slot_of(a: Va) -> usize
    ensures { result ≡ slot_of a.0 }
{
    a.0 as usize % host::SLOTS
}

// The slot that holds address a.
fn slot_with(h: &Host, a: Va) -> Option<usize>
    ensures { result ≡ pick (eqb (at (view h.now).shape.tlb.slot_address (slot_of a.0)) a.0) (Some (slot_of a.0)) None }
{
    let i = slot_of(a);
    (host::slot_address(h, i) == a).then_some(i)
}

// Address a leads to page p; nothing where p is no page.
pub fn translate(h: &mut Host, a: Va, p: Ma)
    ensures { view h.new ≡ pick (is_page p.0) (shaped (view h.old) (translate (view h.old).shape a.0 p.0)) (view h.old) }
{
    if let Some(page) = MachinePage::of(p) {
        set_slot(h, slot_of(a), a, Some(page.ma));
    }
}

#[tactic(auto, using(crate::proofs::Slots::no_slot, host::proofs::Inverse::view_sized))]
pub fn forget(h: &mut Host, a: Va)
    ensures { view h.new ≡ shaped (view h.old) (forget (view h.old).shape a.0) }
{
    if let Some(i) = slot_with(h, a) {
        set_slot(h, i, Va(0), None);
    }
}

pub fn empty_tlb(h: &mut Host)
    ensures { view h.new ≡ shaped (view h.old) (emptied (view h.old).shape) }
{
    for i in 0..host::SLOTS {
        set_slot(h, i, Va(0), None);
    }
}
