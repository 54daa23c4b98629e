// The host's state as lent bytes: where each field stands (docs/STATE.md), one getter and one setter for each, and the numbers that address them.
// A getter answers 0 past the end of its field, and a setter changes nothing there.
#![tactic(auto)]

mod calls; // pending calls
mod layout; // where each field stands
mod lines; // the cache's lines and histories, the TLB's slots
mod names; // sizes, and numbers that stand for names
mod start; // the fresh machine
mod values; // numbers of more than one byte, the active guest, the mode and the policy, the map of free pages

ghost use Rattle.std.specs.Prelude.{◌≡◌, ◌+◌, ◌*◌, ◌<◌, eqb, ltb};
ghost use Rattle.laws.specs.Choice.{at};
ghost use Rattle.model.specs.Sizes.{addresses, physicals};
ghost use Rattle.host.specs.View.{view, column, put, owner_field, kind_field, cacheable_field, entry_field, physical_field, current_field};
ghost use Rattle.host.specs.Columns.{number_of};
ghost use Rattle.numbers.specs.Lead.{lead_of, held_of};

pub use calls::{idle, is_pending, pending, set_pending};
use layout::Column;
pub use lines::{
    history, line_address, line_empty, line_held, line_page, set_history, set_line_address,
    set_line_held, set_slot_address, set_slot_page, slot_address, slot_empty, slot_page,
};
pub use names::{
    ADDRESSES, CACHEABLE, CALL_A_BOUND, CALL_B_BOUND, FIRST_FREE_PAGE, FIRST_HOST_PAGE,
    FIRST_RESERVED, GUESTS, HISTORIES, KIND_DATA, KIND_NONE, KIND_TABLE, LINES, MARKS, OWNER_GUEST,
    OWNER_HOST, OWNER_NONE, PAGES, PHYSICALS, POLICIES, RUNNING, SETS, SIZE, SLOTS, STEALTH,
    STEALTH_LINE, STEALTH_SET, WAITING, WAYS, WRITE_BACK, WRITE_THROUGH,
};
pub use numbers::{
    CALL_DEL, CALL_LSWITCH, CALL_NEW, CALL_NONE, CALL_PIN, CALL_UNPIN, CALLS, Call, CallBytes,
    Guest, Held, Ma, Pa, PinKind, Va, held_for, is_empty, lead_in, leads_to, place,
};
pub use start::{fresh, fresh_with};
pub use values::{
    active, free_pages, is_free, line_value, lowest_free, mark_free, memory, mode, policy,
    set_active, set_line_value, set_memory, set_mode, set_policy, unmark_free, whole,
};

pub type Host = [u8; SIZE];

// Whether a write to a line writes memory too.
#[derive(Clone, Copy)]
pub enum WritePolicy {
    Back,
    Through,
}

// ---- fields

// Where a field stands.
#[derive(Clone, Copy)]
struct Field {
    start: usize,
    size: usize,
}

// Byte i of the field, 0 past its end.
fn get(h: &Host, c: Column, i: usize) -> u8
    ensures { result ≡ at (column (number_of c) (view h.now)) i }
{
    let Field { start, size } = c.extent();
    if i < size { h[start + i] } else { 0 }
}

// Nothing past its end.
fn set(h: &mut Host, c: Column, i: usize, v: u8)
    ensures { view h.new ≡ put (number_of c) (view h.old) i v }
{
    let Field { start, size } = c.extent();
    if i < size {
        h[start + i] = v;
    }
}

// ---- a page plus one

// To what place i of the field leads, and whether it is empty.
fn get_lead(h: &Host, c: Column, i: usize) -> Option<Ma>
    ensures { result ≡ lead_of (at (column (number_of c) (view h.now)) i) }
{
    lead_in(Held(get(h, c, i)))
}

fn get_empty(h: &Host, c: Column, i: usize) -> bool
    ensures { result ≡ eqb (at (column (number_of c) (view h.now)) i) 0 }
{
    get(h, c, i) == 0
}

fn set_lead(h: &mut Host, c: Column, i: usize, l: Option<Ma>)
    ensures { view h.new ≡ put (number_of c) (view h.old) i (held_of l) }
{
    set(h, c, i, held_for(l).0)
}

// ---- a number and its bound

// Whether byte i of field k is below the bound: it is 0 past the end of its field, and where the field is no list of bytes.
pub fn is_below(h: &Host, k: usize, i: usize, bound: u8) -> bool
    ensures { result ≡ ltb (at (column k (view h.now)) i) bound }
{
    match Column::numbered(k) {
        Some(c) => get(h, c, i) < bound,
        None => 0 < bound,
    }
}

// ---- pages

pub fn owner(h: &Host, p: Ma) -> u8
    ensures { result ≡ at (view h.now).shape.pages.owner p.0 }
{
    get(h, Column::Owner, p.0 as usize)
}

pub fn set_owner(h: &mut Host, p: Ma, v: u8)
    ensures { view h.new ≡ put owner_field (view h.old) p.0 v }
{
    set(h, Column::Owner, p.0 as usize, v)
}

pub fn kind(h: &Host, p: Ma) -> u8
    ensures { result ≡ at (view h.now).shape.pages.kind p.0 }
{
    get(h, Column::Kind, p.0 as usize)
}

pub fn set_kind(h: &mut Host, p: Ma, v: u8)
    ensures { view h.new ≡ put kind_field (view h.old) p.0 v }
{
    set(h, Column::Kind, p.0 as usize, v)
}

pub fn cacheable(h: &Host, p: Ma) -> u8
    ensures { result ≡ at (view h.now).shape.pages.cacheable p.0 }
{
    get(h, Column::Cacheable, p.0 as usize)
}

pub fn set_cacheable(h: &mut Host, p: Ma, v: u8)
    ensures { view h.new ≡ put cacheable_field (view h.old) p.0 v }
{
    set(h, Column::Cacheable, p.0 as usize, v)
}

// To what table t leads from address a.
pub fn entry(h: &Host, t: Ma, a: Va) -> Option<Ma>
    ensures { result ≡ lead_of (at (view h.now).shape.pages.entry (addresses * t.0 + a.0)) }
{
    get_lead(h, Column::Entry, ADDRESSES * t.0 as usize + a.0 as usize)
}

pub fn entry_empty(h: &Host, t: Ma, a: Va) -> bool
    ensures { result ≡ eqb (at (view h.now).shape.pages.entry (addresses * t.0 + a.0)) 0 }
{
    get_empty(h, Column::Entry, ADDRESSES * t.0 as usize + a.0 as usize)
}

pub fn set_entry(h: &mut Host, t: Ma, a: Va, l: Option<Ma>)
    ensures { view h.new ≡ put entry_field (view h.old) (addresses * t.0 + a.0) (held_of l) }
{
    set_lead(h, Column::Entry, ADDRESSES * t.0 as usize + a.0 as usize, l)
}

// To what guest g's physical address a leads.
pub fn physical(h: &Host, g: Guest, a: Pa) -> Option<Ma>
    ensures { result ≡ lead_of (at (view h.now).shape.pages.physical (physicals * g.0 + a.0)) }
{
    get_lead(h, Column::Physical, PHYSICALS * g.0 as usize + a.0 as usize)
}

pub fn physical_empty(h: &Host, g: Guest, a: Pa) -> bool
    ensures { result ≡ eqb (at (view h.now).shape.pages.physical (physicals * g.0 + a.0)) 0 }
{
    get_empty(h, Column::Physical, PHYSICALS * g.0 as usize + a.0 as usize)
}

pub fn set_physical(h: &mut Host, g: Guest, a: Pa, l: Option<Ma>)
    ensures { view h.new ≡ put physical_field (view h.old) (physicals * g.0 + a.0) (held_of l) }
{
    set_lead(
        h,
        Column::Physical,
        PHYSICALS * g.0 as usize + a.0 as usize,
        l,
    )
}

// ---- guests

pub fn current(h: &Host, g: Guest) -> Pa
    ensures { result.0 ≡ at (view h.now).shape.guests.current g.0 }
{
    Pa(get(h, Column::Current, g.0 as usize))
}

pub fn set_current(h: &mut Host, g: Guest, a: Pa)
    ensures { view h.new ≡ put current_field (view h.old) g.0 a.0 }
{
    set(h, Column::Current, g.0 as usize, a.0)
}
