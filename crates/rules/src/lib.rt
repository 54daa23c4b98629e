// The test of validity: a function for each rule of docs/RULES.md.
#![tactic(auto)]

ghost use Rattle.std.specs.Prelude.{◌≡◌};
ghost use Rattle.laws.specs.Search.{all_below};
ghost use Rattle.model.specs.Sizes.{addresses};
ghost use Rattle.model.specs.State.{table};
ghost use Rattle.model.specs.RuleTests.{rule1?, rule2?, rule8?, rule9?, rule10?, rule11?, rule3?, rule4?, rule5?, rule6?, rule7?};
ghost use Rattle.model.specs.Valid.{valid?};
ghost use Rattle.host.specs.View.{view};
ghost use Rattle.ranges.specs.Ranges.{entry_in_range};
ghost use Rattle.entries.specs.Entries.{own_at};

use entries::{no_page_shared, own};
use host::{Guest, Host, Ma, Va};
use lines::{line, slot, through};
use places::{call_kept, current_table, held, page_kept, registered, stealth_cacheable};
use ranges::{
    entry_in_range, guest_in_range, line_in_range, page_in_range, place_in_range, set_in_range,
    slot_in_range,
};

// Guests, pages, addresses, lines and slots are numbered by bytes; host's sizes index buffers, and with them each test below would cast.

const ADDRESSES: u8 = host::ADDRESSES as u8;

const GUESTS: u8 = host::GUESTS as u8;

const LINES: u8 = host::LINES as u8;

const PAGES: u8 = host::PAGES as u8;

const PHYSICALS: u8 = host::PHYSICALS as u8;

const SETS: u8 = host::SETS as u8;

const SLOTS: u8 = host::SLOTS as u8;

// ---- each entry of page m, read as a table

fn table_own(h: &Host, m: Ma) -> bool
    ensures { result ≡ all_below addresses (own_at (view h.now) m.0) }
{
    (0..ADDRESSES).all(|a| own(h, m, Va(a)))
}

fn table_in_range(h: &Host, m: Ma) -> bool
    ensures { result ≡ all_below addresses (entry_in_range (view h.now) m.0) }
{
    (0..ADDRESSES).all(|a| entry_in_range(h, m, Va(a)))
}

// ---- the rules

pub fn rule1(h: &Host) -> bool
    ensures { result ≡ rule1? (view h.now).shape.guests.call (view h.now).shape.guests.call_a (view h.now).shape.guests.call_b (view h.now).shape.guests.active (view h.now).shape.guests.mode }
{
    (0..GUESTS).all(|g| call_kept(h, Guest(g)))
}

pub fn rule2(h: &Host) -> bool
    ensures { result ≡ rule2? (view h.now).shape.pages.owner (view h.now).shape.pages.kind (view h.now).shape.pages.cacheable (view h.now).values.memory (view h.now).shape.pages.free }
{
    (0..PAGES).all(|p| page_kept(h, Ma(p)))
}

pub fn rule3(h: &Host) -> bool
    ensures { result ≡ rule3? (view h.now).shape.pages.owner (view h.now).shape.pages.physical }
{
    host::whole(h);
    (0..GUESTS * PHYSICALS).all(|i| held(h, i)) & (0..PAGES).all(|p| registered(h, Ma(p)))
}

pub fn rule4(h: &Host) -> bool
    ensures { result ≡ rule4? (view h.now).shape.pages.owner (view h.now).shape.pages.kind (view h.now).shape.pages.entry }
{
    host::whole(h);
    (0..PAGES).all(|m| table_own(h, Ma(m)))
}

pub fn rule5(h: &Host) -> bool
    ensures { result ≡ rule5? (view h.now).shape.pages.owner (view h.now).shape.pages.kind (view h.now).shape.pages.physical (view h.now).shape.guests.current }
{
    (0..GUESTS).all(|g| current_table(h, Guest(g)))
}

pub fn rule6(h: &Host) -> bool
    ensures { result ≡ rule6? (view h.now).shape.pages.kind (view h.now).shape.pages.cacheable (view h.now).shape.pages.entry }
{
    host::whole(h);
    no_page_shared(h) & (0..PAGES).all(|m| stealth_cacheable(h, Ma(m)))
}

pub fn rule7(h: &Host) -> bool
    ensures { result ≡ rule7? (view h.now).shape.pages.kind (view h.now).shape.pages.cacheable (view h.now).shape.pages.entry (view h.now).shape.cache.line_address (view h.now).shape.cache.line_page }
{
    (0..LINES).all(|i| line(h, i))
}

pub fn rule8(h: &Host) -> bool
    ensures { result ≡ rule8? (view h.now).shape.pages.entry (view h.now).shape.tlb.slot_address (view h.now).shape.tlb.slot_page (table (view h.now).shape) }
{
    (0..SLOTS).all(|i| slot(h, i))
}

pub fn rule9(h: &Host) -> bool
    ensures { result ≡ rule9? (view h.now).shape.pages.entry (view h.now).shape.cache.line_address (view h.now).shape.cache.line_page (view h.now).shape.cache.history (table (view h.now).shape) }
{
    lines::stealth_kept(h)
}

pub fn rule10(h: &Host) -> bool
    ensures { result ≡ rule10? (view h.now) }
{
    host::whole(h);
    let a = host::active(h);
    let singles = (a.0 < GUESTS)
        & (host::mode(h) < host::RUNNING + 1)
        & (host::policy(h) < host::POLICIES);
    let shapes = (0..PAGES).all(|p| page_in_range(h, Ma(p)))
        & (0..GUESTS * PHYSICALS).all(|i| place_in_range(h, i))
        & (0..GUESTS).all(|g| guest_in_range(h, Guest(g)))
        & (0..LINES).all(|i| line_in_range(h, i))
        & (0..SETS).all(|k| set_in_range(h, k))
        & (0..SLOTS).all(|i| slot_in_range(h, i));
    singles & shapes & (0..PAGES).all(|m| table_in_range(h, Ma(m)))
}

pub fn rule11(h: &Host) -> bool
    ensures { result ≡ rule11? (view h.now).shape.cache.line_page (view h.now).values.memory (view h.now).values.line (view h.now).shape.policy }
{
    (0..LINES).all(|i| through(h, i))
}

// Without an exit in between: a valid state, which is what is judged, passes them all.
pub fn valid(h: &Host) -> bool
    ensures { result ≡ valid? (view h.now) }
{
    host::whole(h);
    rule1(h)
        & rule2(h)
        & rule3(h)
        & rule4(h)
        & rule5(h)
        & rule6(h)
        & rule7(h)
        & rule8(h)
        & rule9(h)
        & rule10(h)
        & rule11(h)
}
