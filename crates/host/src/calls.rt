// Pending calls: a guest's call in the bytes.
ghost use Rattle.std.specs.Prelude.{◌≡◌, eqb};
ghost use Rattle.laws.specs.Choice.{at};
ghost use Rattle.numbers.specs.Calls.{bytes_of, same_bytes, call_of};
ghost use Rattle.host.specs.View.{view};
ghost use Rattle.host.specs.Calls.{stored_call, put_call};

use super::layout::Column;
use super::{Call, CallBytes, Guest, Host, get, get_empty, set};

fn stored(h: &Host, g: Guest) -> CallBytes
    ensures { result ≡ stored_call (view h.now) g.0 }
{
    let i = g.0 as usize;
    CallBytes {
        number: get(h, Column::Call, i),
        a: get(h, Column::CallA, i),
        b: get(h, Column::CallB, i),
    }
}

pub fn pending(h: &Host, g: Guest) -> Call
    ensures { result ≡ call_of (at (view h.now).shape.guests.call g.0) (at (view h.now).shape.guests.call_a g.0) (at (view h.now).shape.guests.call_b g.0) }
{
    Call::from(stored(h, g))
}

// Whether guest g's call is exactly x, byte for byte.
pub fn is_pending(h: &Host, g: Guest, x: Call) -> bool
    ensures { result ≡ same_bytes (stored_call (view h.now) g.0) (bytes_of x) }
{
    stored(h, g) == CallBytes::from(x)
}

// Whether guest g's call is numbered 0, whatever its arguments.
pub fn idle(h: &Host, g: Guest) -> bool
    ensures { result ≡ eqb (at (view h.now).shape.guests.call g.0) 0 }
{
    get_empty(h, Column::Call, g.0 as usize)
}

pub fn set_pending(h: &mut Host, g: Guest, x: Call)
    ensures { view h.new ≡ put_call (view h.old) g.0 (bytes_of x) }
{
    let n = CallBytes::from(x);
    let i = g.0 as usize;
    set(h, Column::Call, i, n.number);
    set(h, Column::CallA, i, n.a);
    set(h, Column::CallB, i, n.b);
}
