// Numbers that are never mixed, and what bytes mean by themselves, whichever host they are of: to what a place leads, and which call is meant.
#![tactic(auto)]

mod calls; // calls and their bytes
mod refusal; // refusals and their numbers

ghost use Rattle.std.specs.Prelude.{◌≡◌, eqb};
ghost use Rattle.numbers.specs.Lead.{lead_of, held_of, place_of, leads_at};

pub use calls::{
    CALL_DEL, CALL_LSWITCH, CALL_NEW, CALL_NONE, CALL_PIN, CALL_UNPIN, CALLS, Call, CallBytes,
    PinKind,
};
pub use refusal::{Refusal, code_of};

// A machine page, a virtual address, a physical address of a guest, a guest.
#[derive(Clone, Copy, PartialEq, Eq)]
pub struct Ma(pub u8);

#[derive(Clone, Copy, PartialEq, Eq)]
pub struct Va(pub u8);

#[derive(Clone, Copy, PartialEq, Eq)]
pub struct Pa(pub u8);

#[derive(Clone, Copy, PartialEq, Eq)]
pub struct Guest(pub u8);

pub const PAGES: u8 = 64;

// What such a place holds, damaged ones too: the page plus one, 0 for none. Only `host` makes it of a byte and opens it.
#[derive(Clone, Copy, PartialEq, Eq)]
pub struct Held(pub u8);

fn lead_of(e: u8) -> Option<Ma>
    ensures { result ≡ lead_of e }
{
    let page = e.checked_sub(1)?;
    (page < PAGES).then_some(Ma(page))
}

fn held_of(l: Option<Ma>) -> u8
    ensures { result ≡ held_of l }
{
    match l {
        Some(Ma(page)) if page < PAGES => page + 1,
        _ => 0,
    }
}

// The page, or the number past the last.
pub fn place(l: Option<Ma>) -> Ma
    ensures { result.0 ≡ place_of l }
{
    l.unwrap_or(Ma(PAGES))
}

// Whether the lead is to page p.
pub fn leads_to(l: Option<Ma>, p: Ma) -> bool
    ensures { result ≡ leads_at l p.0 }
{
    l == Some(p)
}

// To what a place leads that holds x, and what is held for a lead.
pub fn lead_in(x: Held) -> Option<Ma>
    ensures { result ≡ lead_of x.0 }
{
    lead_of(x.0)
}

pub fn held_for(l: Option<Ma>) -> Held
    ensures { result.0 ≡ held_of l }
{
    Held(held_of(l))
}

pub fn is_empty(x: Held) -> bool
    ensures { result ≡ eqb x.0 0 }
{
    x.0 == 0
}
