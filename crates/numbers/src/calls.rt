// Calls: which call three bytes are, and the bytes of a call.
ghost use Rattle.std.specs.Prelude.{◌≡◌};
ghost use Rattle.numbers.specs.Calls.{pin_kind_of, pin_number, bytes_of, call_named, call_of};

use super::{Pa, Va};

// Calls, by their number.
pub const CALL_NONE: u8 = 0;

pub const CALL_NEW: u8 = 1;

pub const CALL_DEL: u8 = 2;

pub const CALL_LSWITCH: u8 = 3;

pub const CALL_PIN: u8 = 4;

pub const CALL_UNPIN: u8 = 5;

pub const CALLS: u8 = 6;

// What a pin makes of the page.
#[derive(Clone, Copy, PartialEq, Eq)]
pub enum PinKind {
    Data,
    Table,
}

// A call with the arguments of its action; or bytes that are none.
#[derive(Clone, Copy, PartialEq, Eq)]
pub enum Call {
    None,
    New(Va, Pa),
    Del(Va),
    Lswitch(Pa),
    Pin(Pa, PinKind),
    Unpin(Pa),
    Other(u8, u8, u8),
}

// A call as it is stored, and as a record has it: its number and its arguments, unused ones zero.
#[derive(Clone, Copy, PartialEq, Eq)]
pub struct CallBytes {
    pub number: u8,
    pub a: u8,
    pub b: u8,
}

// ---- a pin's kind

// 0 data, any other table.
impl From<u8> for PinKind {
    ghost from_gives = { λ n k. k ≡ pin_kind_of n };

    fn from(n: u8) -> PinKind {
        if n == 0 {
            PinKind::Data
        } else {
            PinKind::Table
        }
    }
}

impl From<PinKind> for u8 {
    ghost from_gives = { λ k n. n ≡ pin_number k };

    fn from(k: PinKind) -> u8 {
        k as u8
    }
}

// ---- a call

impl From<Call> for CallBytes {
    ghost from_gives = { λ x n. n ≡ bytes_of x };

    fn from(x: Call) -> CallBytes {
        let (number, a, b) = match x {
            Call::None => (CALL_NONE, 0, 0),
            Call::New(v, p) => (CALL_NEW, v.0, p.0),
            Call::Del(v) => (CALL_DEL, v.0, 0),
            Call::Lswitch(p) => (CALL_LSWITCH, p.0, 0),
            Call::Pin(p, k) => (CALL_PIN, p.0, u8::from(k)),
            Call::Unpin(p) => (CALL_UNPIN, p.0, 0),
            Call::Other(number, a, b) => (number, a, b),
        };
        CallBytes { number, a, b }
    }
}

// The call of the number, with as many of a and b as it uses.
fn named(c: u8, a: u8, b: u8) -> Call
    ensures { result ≡ call_named c a b }
{
    match c {
        CALL_NEW => Call::New(Va(a), Pa(b)),
        CALL_DEL => Call::Del(Va(a)),
        CALL_LSWITCH => Call::Lswitch(Pa(a)),
        CALL_PIN => Call::Pin(Pa(a), PinKind::from(b)),
        CALL_UNPIN => Call::Unpin(Pa(a)),
        _ => Call::None,
    }
}

// The call whose bytes these are.
impl From<CallBytes> for Call {
    ghost from_gives = { λ n x. x ≡ call_of n.number n.a n.b };

    fn from(n: CallBytes) -> Call {
        let x = named(n.number, n.a, n.b);
        if CallBytes::from(x) == n {
            x
        } else {
            Call::Other(n.number, n.a, n.b)
        }
    }
}
