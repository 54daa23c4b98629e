// The cache's lines and histories, and the TLB's slots: a getter and a setter for each field.
ghost use Rattle.std.specs.Prelude.{◌≡◌, eqb};
ghost use Rattle.laws.specs.Choice.{at};
ghost use Rattle.host.specs.View.{view, put, line_address_field, line_page_field, history_field, slot_address_field, slot_page_field};
ghost use Rattle.numbers.specs.Lead.{lead_of, held_of};

use super::layout::Column;
use super::{Held, Host, Ma, Va, get, get_empty, get_lead, set, set_lead};

// ---- the cache's lines and histories

pub fn line_address(h: &Host, i: usize) -> Va
    ensures { result.0 ≡ at (view h.now).shape.cache.line_address i }
{
    Va(get(h, Column::LineAddress, i))
}

pub fn set_line_address(h: &mut Host, i: usize, a: Va)
    ensures { view h.new ≡ put line_address_field (view h.old) i a.0 }
{
    set(h, Column::LineAddress, i, a.0)
}

pub fn line_page(h: &Host, i: usize) -> Option<Ma>
    ensures { result ≡ lead_of (at (view h.now).shape.cache.line_page i) }
{
    get_lead(h, Column::LinePage, i)
}

pub fn line_empty(h: &Host, i: usize) -> bool
    ensures { result ≡ eqb (at (view h.now).shape.cache.line_page i) 0 }
{
    get_empty(h, Column::LinePage, i)
}

pub fn line_held(h: &Host, i: usize) -> Held
    ensures { result.0 ≡ at (view h.now).shape.cache.line_page i }
{
    Held(get(h, Column::LinePage, i))
}

pub fn set_line_held(h: &mut Host, i: usize, x: Held)
    ensures { view h.new ≡ put line_page_field (view h.old) i x.0 }
{
    set(h, Column::LinePage, i, x.0)
}

pub fn history(h: &Host, k: usize) -> u8
    ensures { result ≡ at (view h.now).shape.cache.history k }
{
    get(h, Column::History, k)
}

pub fn set_history(h: &mut Host, k: usize, v: u8)
    ensures { view h.new ≡ put history_field (view h.old) k v }
{
    set(h, Column::History, k, v)
}

// ---- the TLB

pub fn slot_address(h: &Host, i: usize) -> Va
    ensures { result.0 ≡ at (view h.now).shape.tlb.slot_address i }
{
    Va(get(h, Column::SlotAddress, i))
}

pub fn set_slot_address(h: &mut Host, i: usize, a: Va)
    ensures { view h.new ≡ put slot_address_field (view h.old) i a.0 }
{
    set(h, Column::SlotAddress, i, a.0)
}

pub fn slot_page(h: &Host, i: usize) -> Option<Ma>
    ensures { result ≡ lead_of (at (view h.now).shape.tlb.slot_page i) }
{
    get_lead(h, Column::SlotPage, i)
}

pub fn slot_empty(h: &Host, i: usize) -> bool
    ensures { result ≡ eqb (at (view h.now).shape.tlb.slot_page i) 0 }
{
    get_empty(h, Column::SlotPage, i)
}

pub fn set_slot_page(h: &mut Host, i: usize, l: Option<Ma>)
    ensures { view h.new ≡ put slot_page_field (view h.old) i (held_of l) }
{
    set_lead(h, Column::SlotPage, i, l)
}
