// What rule 4 tests at one entry and rule 6 at one page, and rule 6 in one pass over all tables.
#![tactic(auto)]

ghost use Rattle.std.specs.Prelude.{◌≡◌, ◌+◌, ◌*◌, ◌/◌, ◌%◌, ◌<◌};
ghost use Rattle.host.specs.View.{view};
ghost use Rattle.numbers.specs.Lead.{toward};
ghost use Rattle.entries.specs.Entries.{own_at, mapped_twice, page_unshared, counted, unshared};

use host::{CACHEABLE, Host, KIND_DATA, KIND_TABLE, Ma, OWNER_GUEST, STEALTH, Va};

const ADDRESSES: u8 = host::ADDRESSES as u8;

const GUESTS: u8 = host::GUESTS as u8;

const PAGES: u8 = host::PAGES as u8;

pub fn own(h: &Host, m: Ma, a: Va) -> bool
    ensures { result ≡ own_at (view h.now) m.0 a.0 }
{
    let o = host::owner(h, m);
    match host::entry(h, m, a) {
        Some(p) => (host::kind(h, m) == KIND_TABLE)
            & !asks::reserved(a)
            & (host::kind(h, p) == KIND_DATA)
            & (o < OWNER_GUEST + GUESTS)
            & (host::owner(h, p) == o),
        None => host::entry_empty(h, m, a),
    }
}

// ---- 6, at one page

// At some address some table maps the page, and some table at another.
fn mapped_twice(h: &Host, p: Ma) -> bool
    ensures { result ≡ mapped_twice (view h.now) p.0 }
{
    (0..ADDRESSES).any(|a| asks::maps_at(h, p, Va(a)) && asks::maps_away(h, p, Va(a)))
}

pub fn page_unshared(h: &Host, p: Ma) -> bool
    ensures { result ≡ page_unshared (view h.now) p.0 }
{
    if host::cacheable(h, p) != CACHEABLE {
        return !asks::maps_at(h, p, Va(STEALTH));
    }
    host::kind(h, p) != KIND_DATA || !mapped_twice(h, p)
}

// ---- 6, in one pass

// The page that table m maps at a, if it is cacheable data.
fn counted_page(h: &Host, m: Ma, a: Va) -> Option<Ma>
    ensures { result ≡ toward (counted (view h.now) m.0 a.0) }
{
    let p = host::entry(h, m, a)?;
    let counts = (host::kind(h, m) == KIND_TABLE)
        & (host::kind(h, p) == KIND_DATA)
        & (host::cacheable(h, p) == CACHEABLE);
    counts.then_some(p)
}

// For each page the address at which it was seen.
pub fn no_page_shared(h: &Host) -> bool
    ensures { result ≡ unshared (view h.now) }
{
    let mut seen: [Option<Va>; host::PAGES] = [None; host::PAGES];
    for m in 0..PAGES {
        for a in 0..ADDRESSES {
            if let Some(p) = counted_page(h, Ma(m), Va(a)) {
                let k = p.0 as usize;
                if seen[k].is_some_and(|b| b != Va(a)) {
                    return false;
                }
                seen[k] = Some(Va(a));
            }
        }
    }
    true
}
