// What checks ask of a state, answered on its bytes, and the refusal of an action.
#![tactic(auto)]

ghost use Rattle.std.specs.Prelude.{◌≡◌, true, not, ◌<◌, eqb};
ghost use Rattle.model.specs.Sizes.{addresses, reserved};
ghost use Rattle.model.specs.State.{table, mapped, here};
ghost use Rattle.model.specs.Checks.{has_entries};
ghost use Rattle.host.specs.View.{view};
ghost use Rattle.numbers.specs.Lead.{toward};
ghost use Rattle.asks.specs.Leads.{only_table};
ghost use Rattle.asks.specs.Maps.{maps_page_of, entry_is, entry_maps, row_maps, table_maps, entry_there, only_at, but_at};

use host::{FIRST_RESERVED, Host, KIND_TABLE, Ma, Pa, STEALTH, Va};

const PAGES: u8 = host::PAGES as u8;

const ADDRESSES: u8 = host::ADDRESSES as u8;

const PHYSICALS: u8 = host::PHYSICALS as u8;

const SETS: u8 = host::SETS as u8;

// ---- which tables map a page

// Page t, read as a table, leads from address v to page p.
fn entry_is(h: &Host, p: Ma, t: Ma, v: Va) -> bool
    ensures { result ≡ entry_is (view h.now).shape p.0 t.0 v.0 }
{
    host::leads_to(host::entry(h, t, v), p)
}

// The same, v not being a.
fn entry_away(h: &Host, a: Va, p: Ma, t: Ma, v: Va) -> bool
    ensures { result ≡ entry_maps (view h.now).shape (but_at a.0) p.0 t.0 v.0 }
{
    entry_is(h, p, t, v) & (v != a)
}

// Without an exit in between: one pass over the row.
fn row_away(h: &Host, a: Va, p: Ma, t: Ma) -> bool
    ensures { result ≡ row_maps (view h.now).shape (but_at a.0) p.0 t.0 }
{
    (0..ADDRESSES).fold(false, |found, v| found | entry_away(h, a, p, t, Va(v)))
}

fn table_away(h: &Host, a: Va, p: Ma, t: Ma) -> bool
    ensures { result ≡ table_maps (view h.now).shape (but_at a.0) p.0 t.0 }
{
    host::kind(h, t) == KIND_TABLE && row_away(h, a, p, t)
}

// Some table maps another address than a to page p.
pub fn maps_away(h: &Host, p: Ma, a: Va) -> bool
    ensures { result ≡ maps_page_of (view h.now).shape (λ v. not (eqb v a.0)) p.0 }
{
    host::whole(h);
    (0..PAGES).any(|t| table_away(h, a, p, Ma(t)))
}

// Of any address: none of them is the number past the last.
pub fn maps_any(h: &Host, p: Ma) -> bool
    ensures { result ≡ maps_page_of (view h.now).shape (λ v. true) p.0 }
{
    host::whole(h);
    maps_away(h, p, Va(ADDRESSES))
}

fn table_at(h: &Host, a: Va, p: Ma, t: Ma) -> bool
    requires { a.0 < addresses }
    ensures { result ≡ table_maps (view h.now).shape (only_at a.0) p.0 t.0 }
{
    host::kind(h, t) == KIND_TABLE && entry_is(h, p, t, a)
}

// Some table maps address a to page p.
pub fn maps_at(h: &Host, p: Ma, a: Va) -> bool
    ensures { result ≡ maps_page_of (view h.now).shape (λ v. eqb v a.0) p.0 }
{
    host::whole(h);
    a.0 < ADDRESSES && (0..PAGES).any(|t| table_at(h, a, p, Ma(t)))
}

// ---- the entries of one page

fn entry_there(h: &Host, m: Ma, v: Va) -> bool
    ensures { result ≡ entry_there (view h.now).shape m.0 v.0 }
{
    !host::entry_empty(h, m, v)
}

// Page m, read as a table, has entries: without an exit in between.
pub fn has_entries(h: &Host, m: Ma) -> bool
    ensures { result ≡ has_entries (view h.now).shape.pages.entry m.0 }
{
    host::whole(h);
    (0..ADDRESSES).fold(false, |found, v| found | entry_there(h, m, Va(v)))
}

// ---- addresses

// 48 or more, or of the stealth address's set without being it.
pub fn reserved(a: Va) -> bool
    ensures { result ≡ reserved a.0 }
{
    FIRST_RESERVED <= a.0 || a.0 % SETS == STEALTH % SETS && a.0 != STEALTH
}

// ---- the table in force

// A page that is a table.
fn only_table(h: &Host, l: Option<Ma>) -> Option<Ma>
    ensures { result ≡ only_table (view h.now).shape.pages.kind l }
{
    l.filter(|p| host::kind(h, *p) == KIND_TABLE)
}

// The active guest's current table.
pub fn table(h: &Host) -> Option<Ma>
    ensures { result ≡ toward (table (view h.now).shape) }
{
    let g = host::active(h);
    let a = host::current(h, g);
    if a.0 < PHYSICALS {
        only_table(h, host::physical(h, g, a))
    } else {
        None
    }
}

// To what the table in force leads from address a.
pub fn mapped(h: &Host, a: Va) -> Option<Ma>
    ensures { result ≡ toward (mapped (view h.now).shape a.0) }
{
    host::entry(h, host::place(table(h)), a)
}

// The page at the active guest's physical address a.
pub fn here(h: &Host, a: Pa) -> Option<Ma>
    ensures { result ≡ toward (here (view h.now).shape a.0) }
{
    host::physical(h, host::active(h), a)
}

// ---- the refusal of an action

mod checks;

pub use checks::check;
