// The refusal of an action: checks 3 and 4 from its kind's row, then its own, in order of number.
ghost use Rattle.std.specs.Prelude.{◌≡◌, []};
ghost use Rattle.model.specs.Records.{fields_of};
ghost use Rattle.model.specs.Checks.{asked, first, has_call, row_checks};
ghost use Rattle.model.specs.Read.{access_checks};
ghost use Rattle.model.specs.New.{new_checks};
ghost use Rattle.model.specs.NewSm.{new_sm_checks};
ghost use Rattle.model.specs.Lswitch.{lswitch_checks};
ghost use Rattle.model.specs.Pin.{pin_checks};
ghost use Rattle.model.specs.Unpin.{unpin_checks};
ghost use Rattle.model.specs.Step.{own_checks, refusal};
ghost use Rattle.numbers.specs.Refusals.{code_of};
ghost use Rattle.host.specs.View.{view};
ghost use Rattle.asks.specs.Actions.{action_from, kind_of, guest_of, served};
ghost use Rattle.asks.specs.Refusals.{wrong_mode_by, wrong_call_by, other_call};

use super::{has_entries, here, mapped, maps_any, maps_at, maps_away, reserved};
use host::{
    CACHEABLE, Call, Guest, Host, KIND_DATA, KIND_TABLE, Pa, RUNNING, STEALTH, Va, WAITING,
};
use numbers::Refusal;
use records::{Action, Mode, Need};

// ---- what an action names

// The byte that its record begins with, and no enum: records::row_of promises a row for every byte.
fn kind_of(x: Action) -> u8
    ensures { result ≡ kind_of x }
{
    match x {
        Action::Silent => 0,
        Action::Read(_) => 1,
        Action::ReadHyper(_) => 2,
        Action::Write(_, _) => 3,
        Action::WriteHyper(_, _) => 4,
        Action::New(_, _) => 5,
        Action::NewSm(_) => 6,
        Action::Del(_) => 7,
        Action::Switch(_) => 8,
        Action::Lswitch(_) => 9,
        Action::Hcall(_) => 10,
        Action::RetCtrl => 11,
        Action::Chmod => 12,
        Action::Pin(_, _) => 13,
        Action::Unpin(_) => 14,
        Action::Drop(_) => 15,
    }
}

// The guest that it names; guest 0 where it names none.
fn guest_of(x: Action) -> Guest
    ensures { result ≡ guest_of x }
{
    match x {
        Action::Switch(g) | Action::Drop(g) => g,
        _ => Guest(0),
    }
}

// The call that it serves; none where it serves none.
fn served(x: Action) -> Call
    ensures { result ≡ served x }
{
    match x {
        Action::New(a, p) => Call::New(a, p),
        Action::NewSm(p) => Call::New(Va(STEALTH), p),
        Action::Del(a) => Call::Del(a),
        Action::Lswitch(p) => Call::Lswitch(p),
        Action::Pin(p, k) => Call::Pin(p, k),
        Action::Unpin(p) => Call::Unpin(p),
        _ => Call::None,
    }
}

// ---- the row

fn wrong_mode(h: &Host, mode: Mode) -> bool
    ensures { result ≡ wrong_mode_by (asked (view h.now).shape) mode }
{
    match mode {
        Mode::Any => false,
        Mode::Waiting => host::mode(h) != WAITING,
        Mode::Running => host::mode(h) != RUNNING,
    }
}

fn has_call(h: &Host, g: Guest) -> bool
    ensures { result ≡ has_call (asked (view h.now).shape) g.0 }
{
    !host::idle(h, g)
}

// The active guest's call is not exactly x.
fn other_call(h: &Host, x: Call) -> bool
    ensures { result ≡ other_call (asked (view h.now).shape) x }
{
    !host::is_pending(h, host::active(h), x)
}

// A row that needs a call needs the one that the action serves.
fn wrong_call(h: &Host, need: Need, x: Action) -> bool
    ensures { result ≡ wrong_call_by (asked (view h.now).shape) need x }
{
    match need {
        Need::Nothing => false,
        Need::ActiveIdle => has_call(h, host::active(h)),
        Need::NamedIdle => has_call(h, guest_of(x)),
        Need::NamedPending => !has_call(h, guest_of(x)),
        Need::New | Need::Del | Need::Lswitch | Need::Pin | Need::Unpin => {
            other_call(h, served(x))
        }
    }
}

fn of_row(h: &Host, x: Action) -> Result<(), Refusal>
    ensures { code_of result ≡ first (row_checks (asked (view h.now).shape) (action_from x) []) }
{
    let row = records::row_of(kind_of(x));
    if wrong_mode(h, row.mode) {
        return Err(Refusal::WrongMode);
    }
    if wrong_call(h, row.need, x) {
        return Err(Refusal::WrongCall);
    }
    Ok(())
}

// ---- the checks of each action

fn of_access(h: &Host, a: Va) -> Result<(), Refusal>
    ensures { code_of result ≡ first (access_checks (asked (view h.now).shape) a.0) }
{
    if reserved(a) {
        return Err(Refusal::Reserved);
    }
    if mapped(h, a).is_none() {
        return Err(Refusal::Unmapped);
    }
    Ok(())
}

fn of_new(h: &Host, a: Va, b: Pa) -> Result<(), Refusal>
    ensures { code_of result ≡ first (new_checks (asked (view h.now).shape) a.0 b.0) }
{
    if reserved(a) || a.0 == STEALTH {
        return Err(Refusal::Reserved);
    }
    let p = here(h, b).ok_or(Refusal::NoPage)?;
    if host::kind(h, p) != KIND_DATA {
        return Err(Refusal::OtherKind);
    }
    if maps_at(h, p, Va(STEALTH)) {
        return Err(Refusal::Stealthy);
    }
    Ok(())
}

fn of_new_sm(h: &Host, b: Pa) -> Result<(), Refusal>
    ensures { code_of result ≡ first (new_sm_checks (asked (view h.now).shape) b.0) }
{
    let p = here(h, b).ok_or(Refusal::NoPage)?;
    if host::kind(h, p) != KIND_DATA {
        return Err(Refusal::OtherKind);
    }
    if host::cacheable(h, p) != CACHEABLE || maps_away(h, p, Va(STEALTH)) {
        return Err(Refusal::Stealthy);
    }
    if mapped(h, Va(STEALTH)).is_some() {
        return Err(Refusal::Taken);
    }
    Ok(())
}

fn of_lswitch(h: &Host, b: Pa) -> Result<(), Refusal>
    ensures { code_of result ≡ first (lswitch_checks (asked (view h.now).shape) b.0) }
{
    let p = here(h, b).ok_or(Refusal::NoPage)?;
    if host::kind(h, p) != KIND_TABLE {
        return Err(Refusal::OtherKind);
    }
    Ok(())
}

fn of_pin(h: &Host, b: Pa) -> Result<(), Refusal>
    ensures { code_of result ≡ first (pin_checks (asked (view h.now).shape) b.0) }
{
    if here(h, b).is_some() {
        return Err(Refusal::Taken);
    }
    if host::lowest_free(h).is_none() {
        return Err(Refusal::NoneFree);
    }
    Ok(())
}

fn is_current(h: &Host, b: Pa) -> bool
    ensures { result ≡ (asked (view h.now).shape).current b.0 }
{
    b == host::current(h, host::active(h))
}

fn of_unpin(h: &Host, b: Pa) -> Result<(), Refusal>
    ensures { code_of result ≡ first (unpin_checks (asked (view h.now).shape) b.0) }
{
    let p = here(h, b).ok_or(Refusal::NoPage)?;
    if is_current(h, b) || has_entries(h, p) || maps_any(h, p) {
        return Err(Refusal::InUse);
    }
    Ok(())
}

// ---- an action

fn own_check(h: &Host, x: Action) -> Result<(), Refusal>
    ensures { code_of result ≡ first (own_checks (asked (view h.now).shape) (action_from x)) }
{
    match x {
        Action::Read(a)
        | Action::ReadHyper(a)
        | Action::Write(a, _)
        | Action::WriteHyper(a, _)
        | Action::Del(a) => of_access(h, a),
        Action::New(a, p) => of_new(h, a, p),
        Action::NewSm(p) => of_new_sm(h, p),
        Action::Lswitch(p) => of_lswitch(h, p),
        Action::Pin(p, _) => of_pin(h, p),
        Action::Unpin(p) => of_unpin(h, p),
        Action::Silent
        | Action::Switch(_)
        | Action::Hcall(_)
        | Action::RetCtrl
        | Action::Chmod
        | Action::Drop(_) => Ok(()),
    }
}

// The first check from 3 on that refuses x.
pub fn check(h: &Host, x: Action) -> Result<(), Refusal>
    ensures { code_of result ≡ refusal (view h.now).shape (action_from x) }
{
    of_row(h, x)?;
    own_check(h, x)
}
