// What rules 1, 2, 3, 5 and 6 test at one place.
#![tactic(auto)]

ghost use Rattle.std.specs.Prelude.{◌≡◌, ◌+◌, ◌/◌, ◌%◌, ◌<◌};
ghost use Rattle.laws.specs.Choice.{at};
ghost use Rattle.model.specs.RuleTests.{stored, fits};
ghost use Rattle.host.specs.View.{view};
ghost use Rattle.numbers.specs.Calls.{bytes_of};
ghost use Rattle.places.specs.Places.{guest_of, held_once, registered_at, current_table, stealth_cacheable, call_kept, page_kept};

use host::{
    CACHEABLE, CALL_NEW, CALLS, Call, CallBytes, FIRST_FREE_PAGE, FIRST_HOST_PAGE, Guest, Host,
    KIND_DATA, KIND_NONE, KIND_TABLE, Ma, OWNER_GUEST, OWNER_HOST, OWNER_NONE, Pa, RUNNING,
    STEALTH, Va,
};
use seek::implies;

const GUESTS: u8 = host::GUESTS as u8;

const PHYSICALS: u8 = host::PHYSICALS as u8;

fn stored_call(x: Call) -> bool
    ensures { result ≡ stored (bytes_of x).number }
{
    (CALL_NEW..CALLS).contains(&CallBytes::from(x).number)
}

pub fn fits_call(x: Call) -> bool
    ensures { result ≡ fits (bytes_of x).number (bytes_of x).a (bytes_of x).b }
{
    let n = CallBytes::from(x);
    records::within_of(records::kind_of_call(n.number), n.a, n.b)
}

pub fn call_kept(h: &Host, g: Guest) -> bool
    ensures { result ≡ call_kept (view h.now) g.0 }
{
    let x = host::pending(h, g);
    let stored = stored_call(x);
    let fits = fits_call(x);
    let idle = implies((g == host::active(h)) & (host::mode(h) == RUNNING), !stored);
    idle & implies(stored, fits)
}

pub fn page_kept(h: &Host, p: Ma) -> bool
    ensures { result ≡ page_kept (view h.now) p.0 }
{
    let owner = host::owner(h, p);
    let kind = host::kind(h, p);
    let cacheable = host::cacheable(h, p) == CACHEABLE;
    let zero = host::memory(h, p) == 0;
    let place = (FIRST_HOST_PAGE..FIRST_FREE_PAGE).contains(&p.0) == (owner == OWNER_HOST);
    let hosts = implies(owner == OWNER_HOST, (kind == KIND_DATA) & cacheable & zero);
    let none = implies(owner == OWNER_NONE, (kind == KIND_NONE) & cacheable & zero);
    let marked = host::is_free(h, p) == (owner == OWNER_NONE);
    let guests = implies(
        (OWNER_GUEST..OWNER_GUEST + GUESTS).contains(&owner),
        (kind == KIND_DATA) | (kind == KIND_TABLE),
    );
    let table = implies(kind == KIND_TABLE, cacheable & zero);
    place & hosts & none & marked & guests & table
}

// The guest that owns the page, if one does; there may be none of its number.
fn owning_guest(h: &Host, p: Ma) -> Option<Guest>
    ensures { result ≡ guest_of (at (view h.now).shape.pages.owner p.0) }
{
    host::owner(h, p).checked_sub(OWNER_GUEST).map(Guest)
}

pub fn held(h: &Host, i: u8) -> bool
    ensures { result ≡ held_once (view h.now) i }
{
    let g = Guest(i / PHYSICALS);
    let a = Pa(i % PHYSICALS);
    match host::physical(h, g, a) {
        Some(p) => (owning_guest(h, p) == Some(g)) & !seek::held_away(h, g, a, p),
        None => host::physical_empty(h, g, a),
    }
}

pub fn registered(h: &Host, p: Ma) -> bool
    ensures { result ≡ registered_at (view h.now) p.0 }
{
    owning_guest(h, p).is_none_or(|g| g.0 >= GUESTS || seek::held(h, g, p))
}

pub fn current_table(h: &Host, g: Guest) -> bool
    ensures { result ≡ current_table (view h.now) g.0 }
{
    let a = host::current(h, g);
    let own = host::physical(h, g, a).is_some_and(|m| (host::kind(h, m) == KIND_TABLE)
        & (owning_guest(h, m) == Some(g)));
    (a.0 < PHYSICALS) & own
}

pub fn stealth_cacheable(h: &Host, m: Ma) -> bool
    ensures { result ≡ stealth_cacheable (view h.now) m.0 }
{
    let kept = host::entry(h, m, Va(STEALTH)).is_none_or(|p| host::cacheable(h, p) == CACHEABLE);
    implies(host::kind(h, m) == KIND_TABLE, kept)
}
