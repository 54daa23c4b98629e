// Searches among places, and what they read.
#![tactic(auto)]

ghost use Rattle.std.specs.Prelude.{◌≡◌, ◌+◌, ◌<◌};
ghost use Rattle.laws.specs.Choice.{◌⇒◌};
ghost use Rattle.laws.specs.Search.{some_below};
ghost use Rattle.model.specs.Sizes.{physicals, lines};
ghost use Rattle.host.specs.View.{view};
ghost use Rattle.seek.specs.Leads.{held_at, held_away, key_at};

use host::{Guest, Host, Ma, Pa, Va};

const PHYSICALS: u8 = host::PHYSICALS as u8;

pub fn implies(a: bool, b: bool) -> bool
    ensures { result ≡ (a ⇒ b) }
{
    !a | b
}

// ---- among a guest's physical addresses

// Some leads to page p.
pub fn held(h: &Host, g: Guest, p: Ma) -> bool
    ensures { result ≡ some_below physicals (held_at (view h.now) g.0 p.0) }
{
    (0..PHYSICALS).any(|i| host::leads_to(host::physical(h, g, Pa(i)), p))
}

// Another than a leads to page p.
pub fn held_away(h: &Host, g: Guest, a: Pa, p: Ma) -> bool
    ensures { result ≡ some_below physicals (held_away (view h.now) g.0 a.0 p.0) }
{
    (0..PHYSICALS).any(|i| host::leads_to(host::physical(h, g, Pa(i)), p) & (Pa(i) != a))
}

// ---- among lines

// Another line than j has the key of address a and page p.
pub fn key_again(h: &Host, j: usize, a: Va, p: Ma) -> bool
    ensures { result ≡ some_below lines (key_at j a.0 p.0 (view h.now)) }
{
    (0..host::LINES).any(|k| {
        let same = host::line_address(h, k) == a;
        host::leads_to(host::line_page(h, k), p) & same & (k != j)
    })
}
