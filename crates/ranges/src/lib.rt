// What rule 10 tests at one place: numbers in range, also by their field, and empty places zero.
#![tactic(auto)]

ghost use Rattle.std.specs.Prelude.{◌≡◌, ◌+◌, ◌/◌, ◌%◌, ◌<◌};
ghost use Rattle.model.specs.RuleTests.{rule10_at_call, rule10_at_line, rule10_at_slot};
ghost use Rattle.host.specs.View.{view};
ghost use Rattle.seek.specs.Leads.{placed};
ghost use Rattle.ranges.specs.Ranges.{page_in_range, place_in_range, guest_in_range, line_in_range, set_in_range, slot_in_range, entry_in_range, number_in_range};

use host::{
    CALL_A_BOUND, CALL_B_BOUND, CALLS, CallBytes, Guest, HISTORIES, Host, KIND_TABLE, MARKS, Ma,
    OWNER_GUEST, POLICIES, Pa, RUNNING, Va,
};
use seek::implies;

const ADDRESSES: u8 = host::ADDRESSES as u8;

const GUESTS: u8 = host::GUESTS as u8;

const PAGES: u8 = host::PAGES as u8;

const PHYSICALS: u8 = host::PHYSICALS as u8;

// A page or empty.
fn placed_at(l: Option<Ma>, empty: bool) -> bool
    ensures { result ≡ placed l empty }
{
    l.is_some() | empty
}

pub fn page_in_range(h: &Host, p: Ma) -> bool
    ensures { result ≡ page_in_range (view h.now) p.0 }
{
    (host::owner(h, p) < OWNER_GUEST + GUESTS)
        & (host::kind(h, p) <= KIND_TABLE)
        & (host::cacheable(h, p) < MARKS)
}

pub fn place_in_range(h: &Host, i: u8) -> bool
    ensures { result ≡ place_in_range (view h.now) i }
{
    let g = Guest(i / PHYSICALS);
    let a = Pa(i % PHYSICALS);
    placed_at(host::physical(h, g, a), host::physical_empty(h, g, a))
}

// The call's arguments fit it.
pub fn call_fits(h: &Host, g: Guest) -> bool
    ensures { result ≡ rule10_at_call (view h.now) g.0 }
{
    places::fits_call(host::pending(h, g))
}

pub fn guest_in_range(h: &Host, g: Guest) -> bool
    ensures { result ≡ guest_in_range (view h.now) g.0 }
{
    let t = host::current(h, g);
    let x = host::pending(h, g);
    let n = CallBytes::from(x);
    (t.0 < PHYSICALS)
        & (n.number < CALLS)
        & (n.a < CALL_A_BOUND)
        & (n.b < CALL_B_BOUND)
        & places::fits_call(x)
}

// An empty way is all zero.
pub fn line_zero(h: &Host, i: u8) -> bool
    ensures { result ≡ rule10_at_line (view h.now) i }
{
    let k = i as usize;
    let a = host::line_address(h, k);
    let empty = host::line_empty(h, k);
    implies(empty, (a.0 == 0) & (host::line_value(h, k) == 0))
}

pub fn line_in_range(h: &Host, i: u8) -> bool
    ensures { result ≡ line_in_range (view h.now) i }
{
    let k = i as usize;
    let a = host::line_address(h, k);
    let empty = host::line_empty(h, k);
    let placed = placed_at(host::line_page(h, k), empty);
    (a.0 < ADDRESSES) & placed & line_zero(h, i)
}

pub fn set_in_range(h: &Host, k: u8) -> bool
    ensures { result ≡ set_in_range (view h.now) k }
{
    host::history(h, k as usize) < HISTORIES
}

// An empty slot is all zero.
pub fn slot_zero(h: &Host, i: u8) -> bool
    ensures { result ≡ rule10_at_slot (view h.now) i }
{
    let k = i as usize;
    let a = host::slot_address(h, k);
    implies(host::slot_empty(h, k), a.0 == 0)
}

pub fn slot_in_range(h: &Host, i: u8) -> bool
    ensures { result ≡ slot_in_range (view h.now) i }
{
    let k = i as usize;
    let a = host::slot_address(h, k);
    let empty = host::slot_empty(h, k);
    let placed = placed_at(host::slot_page(h, k), empty);
    (a.0 < ADDRESSES) & placed & slot_zero(h, i)
}

pub fn entry_in_range(h: &Host, m: Ma, a: Va) -> bool
    ensures { result ≡ entry_in_range (view h.now) m.0 a.0 }
{
    placed_at(host::entry(h, m, a), host::entry_empty(h, m, a))
}

// ---- a number by its field

// Numbers of docs/STATE.md: a field is no enum, since number_in_range answers for every number.
const ACTIVE: u8 = 10;

const MODE: u8 = 11;

const POLICY: u8 = 19;

// The bounds of the fields that are lists of bytes, by their number. The three among them that are none read as 0 (host::is_below).
const BOUNDS: [u8; 17] = [
    OWNER_GUEST + GUESTS,
    KIND_TABLE + 1,
    MARKS,
    PAGES + 1,
    PAGES + 1,
    1,
    PHYSICALS,
    CALLS,
    CALL_A_BOUND,
    CALL_B_BOUND,
    1,
    1,
    ADDRESSES,
    PAGES + 1,
    HISTORIES,
    ADDRESSES,
    PAGES + 1,
];

// The others, the map and the values, are as large as they can be in their bytes.
pub fn number_in_range(h: &Host, field: u8, i: u16) -> bool
    ensures { result ≡ number_in_range (view h.now) field i }
{
    let k = field as usize;
    match field {
        ACTIVE => host::active(h).0 < GUESTS,
        MODE => host::mode(h) <= RUNNING,
        POLICY => host::policy(h) < POLICIES,
        _ => BOUNDS
            .get(k)
            .is_none_or(|bound| host::is_below(h, k, i as usize, *bound)),
    }
}
