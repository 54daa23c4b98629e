// The table in force: what it leads to changes, and a line of what it led to is taken out.
ghost use Rattle.std.specs.Prelude.{◌≡◌};
ghost use Rattle.model.specs.Sizes.{lines};
ghost use Rattle.model.specs.State.{table};
ghost use Rattle.model.specs.Parts.{take_out};
ghost use Rattle.host.specs.View.{view};
ghost use Rattle.numbers.specs.Lead.{held_of};
ghost use Rattle.cache.specs.Sets.{if_below};
ghost use Rattle.acts.specs.Mapped.{former_line, remapped};

use super::{forget, map};
use host::{Host, Ma, Va};

// Past the last page if there is none: what is stored there is lost.
#[tactic(auto, using(numbers::proofs::Leads::place_toward, asks::proofs::Tables::table_below))]
pub(crate) fn in_force(h: &Host) -> Ma
    ensures { result.0 ≡ table (view h.now).shape }
{
    host::place(asks::table(h))
}

// The table in force leads from address a to what l says.
#[tactic(auto, unfolding(crate::specs::Mapped::remapped))]
pub(crate) fn remap(h: &mut Host, a: Va, l: Option<Ma>)
    ensures { view h.new ≡ remapped (view h.old) a.0 (held_of l) }
{
    let t = in_force(h);
    map(h, t, a, l);
    forget(h, a)
}

// ---- the line of an address

// The line of address a and the page that the table in force leads to from there.
#[tactic(auto, using(crate::proofs::Mapping::former_found, crate::proofs::Mapping::former_missing, cache::proofs::Found::at_page))]
fn former_line(h: &Host, a: Va) -> Option<usize>
    ensures { result ≡ if_below lines (former_line (view h.now).shape a.0) }
{
    let p = asks::mapped(h, a)?;
    let k = a.0 as usize % host::SETS;
    let w = cache::load(h, k).find(a, p)?;
    Some(cache::WAYS * k + w)
}

// It is taken out, if there is one.
#[tactic(auto, using(crate::proofs::Mapping::no_line_out, host::proofs::Inverse::view_sized))]
pub(crate) fn drop_line(h: &mut Host, a: Va)
    ensures { view h.new ≡ take_out (view h.old) (former_line (view h.old).shape a.0) }
{
    if let Some(i) = former_line(h, a) {
        cache::take_out(h, i);
    }
}
