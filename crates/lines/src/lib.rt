// What rules 7, 8 and 11 test at one line or slot, rule 9 at a way of set 7 and at its history, and rule 9 as a whole.
#![tactic(auto)]

ghost use Rattle.std.specs.Prelude.{◌≡◌, ◌+◌, ◌/◌, ◌%◌, ◌<◌};
ghost use Rattle.model.specs.State.{table};
ghost use Rattle.model.specs.RuleTests.{stealth_page, rule9_at_way, rule9_at_history, rule9?};
ghost use Rattle.host.specs.View.{view};
ghost use Rattle.lines.specs.Lines.{lined, slotted, first_way, through};

use host::{CACHEABLE, Host, KIND_DATA, STEALTH, STEALTH_LINE, STEALTH_SET, Va, WRITE_THROUGH};

const ADDRESSES: u8 = host::ADDRESSES as u8;

const SETS: u8 = host::SETS as u8;

const SLOTS: u8 = host::SLOTS as u8;

const WAYS: u8 = host::WAYS as u8;

pub fn line(h: &Host, i: u8) -> bool
    ensures { result ≡ lined (view h.now) i }
{
    let k = i as usize;
    let a = host::line_address(h, k);
    match host::line_page(h, k) {
        Some(p) => (a.0 < ADDRESSES)
            & (a.0 % SETS == i / WAYS)
            & (host::cacheable(h, p) == CACHEABLE)
            & (host::kind(h, p) == KIND_DATA)
            & asks::maps_at(h, p, a)
            & !seek::key_again(h, k, a, p),
        None => host::line_empty(h, k),
    }
}

pub fn slot(h: &Host, i: u8) -> bool
    ensures { result ≡ slotted (view h.now) i }
{
    let k = i as usize;
    let a = host::slot_address(h, k);
    let mapped = asks::table(h).and_then(|m| host::entry(h, m, a));
    match host::slot_page(h, k) {
        Some(p) => (a.0 < ADDRESSES) & (a.0 % SLOTS == i) & (mapped == Some(p)),
        None => host::slot_empty(h, k),
    }
}

// ---- set 7

// Way 0 has the page to which the table in force leads from 7, if there is one.
fn first_way(h: &Host) -> bool
    ensures { result ≡ first_way (view h.now) (stealth_page (view h.now).shape.pages.entry (table (view h.now).shape)) }
{
    match asks::table(h).and_then(|m| host::entry(h, m, Va(STEALTH))) {
        Some(p) => host::leads_to(host::line_page(h, STEALTH_LINE), p)
            & (host::line_address(h, STEALTH_LINE) == Va(STEALTH)),
        None => host::line_empty(h, STEALTH_LINE),
    }
}

// Way w of set 7, and its history.
pub fn stealth_way(h: &Host, w: u8) -> bool
    ensures { result ≡ rule9_at_way (view h.now).shape.pages.entry (view h.now).shape.cache.line_address (view h.now).shape.cache.line_page (table (view h.now).shape) w }
{
    if w == 0 {
        first_way(h)
    } else {
        host::line_empty(h, STEALTH_LINE + w as usize)
    }
}

pub fn stealth_begun(h: &Host) -> bool
    ensures { result ≡ rule9_at_history (view h.now).shape.cache.history }
{
    host::history(h, STEALTH_SET) == 0
}

pub fn stealth_kept(h: &Host) -> bool
    ensures { result ≡ rule9? (view h.now).shape.pages.entry (view h.now).shape.cache.line_address (view h.now).shape.cache.line_page (view h.now).shape.cache.history (table (view h.now).shape) }
{
    stealth_way(h, 0) & stealth_way(h, 1) & stealth_begun(h)
}

// ---- the policy

pub fn through(h: &Host, i: u8) -> bool
    ensures { result ≡ through (view h.now) i }
{
    let k = i as usize;
    let same = host::line_page(h, k).is_none_or(|p| host::line_value(h, k) == host::memory(h, p));
    seek::implies(host::policy(h) == WRITE_THROUGH, same)
}
