// pin: the lowest free page is taken for the active guest.
ghost use Rattle.std.specs.Prelude.{◌≡◌, suc, ◌<◌};
ghost use Rattle.model.specs.Sizes.{guests};
ghost use Rattle.model.specs.Pin.{pin_step};
ghost use Rattle.host.specs.View.{view};
ghost use Rattle.numbers.specs.Calls.{pin_number};
ghost use Rattle.acts.specs.Pinned.{pinned};

use super::clear_call;
use super::parts::renew;
use cache::MachinePage;
use host::{Guest, Host, KIND_DATA, KIND_TABLE, OWNER_GUEST, Pa, PinKind};

// The kind of the page that a pin makes.
fn page_kind(k: PinKind) -> u8
    ensures { result ≡ suc (pin_number k) }
{
    match k {
        PinKind::Data => KIND_DATA,
        PinKind::Table => KIND_TABLE,
    }
}

// MachinePage p for the active guest, g, at a.
#[tactic(auto, using(crate::proofs::Pinning::taken_over))]
fn take(h: &mut Host, g: Guest, a: Pa, k: PinKind, p: MachinePage)
    requires active { g.0 ≡ (view h.old).shape.guests.active }
    requires range { g.0 < guests }
    ensures { view h.new ≡ pin_step (view h.old) a.0 (pin_number k) p.0 }
{
    renew(h, p.ma, OWNER_GUEST + g.0, page_kind(k));
    host::set_physical(h, g, a, Some(p.ma));
    host::unmark_free(h, p.ma);
    clear_call(h)
}

// Nothing where no page is free, or the active guest is out of range.
#[tactic(auto, using(crate::proofs::Pinning::pinned_page, crate::proofs::Pinning::pinned_not))]
pub fn pin(h: &mut Host, a: Pa, k: PinKind)
    ensures { view h.new ≡ pinned (view h.old) a.0 (pin_number k) }
{
    let g = host::active(h);
    if (g.0 as usize) < host::GUESTS {
        if let Some(p) = host::lowest_free(h).and_then(MachinePage::of) {
            take(h, g, a, k, p);
        }
    }
}
