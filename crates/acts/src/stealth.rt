// The stealth line, when the table in force changes.
ghost use Rattle.std.specs.Prelude.{◌≡◌};
ghost use Rattle.laws.specs.Choice.{pick};
ghost use Rattle.model.specs.Sizes.{stealth};
ghost use Rattle.model.specs.State.{is_page, mapped, no_line, stealth_line};
ghost use Rattle.model.specs.Parts.{enter, save_stealth, load_stealth};
ghost use Rattle.host.specs.View.{view};

use super::empty_tlb;
use host::{Host, Va};

pub const STEALTH: u8 = host::STEALTH;

// The line of the stealth page: way 0 of its set.
pub const LINE: usize = host::STEALTH_LINE;

pub(crate) fn save_stealth(h: &mut Host)
    ensures { view h.new ≡ save_stealth (view h.old) }
{
    cache::take_out(h, LINE)
}

// The page that the table in force has at the stealth address enters, if there is one.
#[tactic(auto, using(crate::proofs::Accesses::stealth_stays, host::proofs::Inverse::view_sized))]
fn enter_stealth(h: &mut Host)
    ensures { view h.new ≡ enter (view h.old) (pick (is_page (mapped (view h.old).shape stealth)) stealth_line no_line) stealth (mapped (view h.old).shape stealth) }
{
    if let Some(p) = asks::mapped(h, Va(STEALTH)) {
        cache::fill(h, LINE, Va(STEALTH), p);
    }
}

#[tactic(auto, unfolding(model::specs::Parts::load_stealth))]
pub(crate) fn load_stealth(h: &mut Host)
    ensures { view h.new ≡ load_stealth (view h.old) }
{
    enter_stealth(h);
    empty_tlb(h)
}
