// The first place where a rule is broken: docs/HOST.md, "Checking". Each rule's parts are gone through in the order of docs/RULES.md, place by place.
#![tactic(auto)]

ghost use Rattle.std.specs.Prelude.{◌≡◌, [], ◌∷◌, ◌*◌, ◌/◌, ◌%◌, ◌<◌};
ghost use Rattle.std.specs.Option.{IfSome, option_map};
ghost use Rattle.laws.specs.Choice.{at};
ghost use Rattle.model.specs.Sizes.{pages, addresses};
ghost use Rattle.model.specs.RuleTests.{columns};
ghost use Rattle.model.specs.Broken.{number_parts, parts_of, broken_from, is_holds, finding_number, finding_part, finding_place, first_broken};
ghost use Rattle.host.specs.View.{view};
ghost use Rattle.entries.specs.Entries.{own_at};
ghost use Rattle.broken.specs.Findings.{column_sizes, field_parts, numbers_of, finding_of, finding_from, finding_to};

use entries::{own, page_unshared};
use host::{ADDRESSES, GUESTS, Guest, Host, LINES, Ma, PAGES, PHYSICALS, SETS, SLOTS, Va, WAYS};
use lines::{line, slot, stealth_begun, stealth_way, through};
use places::{call_kept, current_table, held, page_kept, registered};
use ranges::{call_fits, line_zero, number_in_range, slot_zero};

// The rule holds; it is broken, first at a part and a place in it; there is no such rule. Three outcomes, so no Option of a place.
#[derive(Clone, Copy, PartialEq, Eq)]
pub enum Finding {
    Holds,
    Broken(u8, u16),
    NoRule,
}

// The parts of rule 10 are one for each field, and three more.
const FIELDS: u8 = 20;

// How many numbers each field has.
const SIZES: [usize; FIELDS as usize] = [
    PAGES,
    PAGES,
    PAGES,
    PAGES * ADDRESSES,
    GUESTS * PHYSICALS,
    1,
    GUESTS,
    GUESTS,
    GUESTS,
    GUESTS,
    1,
    1,
    LINES,
    LINES,
    SETS,
    SLOTS,
    SLOTS,
    PAGES,
    LINES,
    1,
];

// ---- a finding

// As a number: 0 it holds, 1 it is broken, 2 there is no such rule. No From, since it leaves part and place out.
pub fn number_of(f: Finding) -> u8
    ensures { result ≡ finding_number (finding_from f) }
{
    match f {
        Finding::Holds => 0,
        Finding::Broken(_, _) => 1,
        Finding::NoRule => 2,
    }
}

// The part and the place that it names, 0 where it names none.
pub fn part_of(f: Finding) -> u8
    ensures { result ≡ finding_part (finding_from f) }
{
    if let Finding::Broken(k, _) = f { k } else { 0 }
}

pub fn place_of(f: Finding) -> u16
    ensures { result ≡ finding_place (finding_from f) }
{
    if let Finding::Broken(_, i) = f { i } else { 0 }
}

pub fn is_holds(f: Finding) -> bool
    ensures { result ≡ is_holds (finding_from f) }
{
    f == Finding::Holds
}

// ---- a part

// What is found of part k, of whose places, numbered from 0, this is the first that fails: the part and the place.
fn in_part(k: u8, first: Option<usize>) -> Option<(u8, u16)>
    requires { IfSome first (λ i. i < 65536) }
    ensures { result ≡ option_map (λ i. (k, i)) first }
{
    first.map(|i| (k, i as u16))
}

fn entry_own(h: &Host, i: usize) -> bool
    requires { i < pages * addresses }
    ensures { result ≡ own_at (view h.now) (i / addresses) (i % addresses) }
{
    own(h, Ma((i / ADDRESSES) as u8), Va((i % ADDRESSES) as u8))
}

fn numbers_in(field: u8) -> usize
    requires { field < field_parts }
    ensures size { result ≡ at column_sizes field }
    ensures small { result < 65536 }
{
    SIZES[field as usize]
}

// Of rule 10 the part of field k.
fn in_field(h: &Host, k: u8) -> Option<(u8, u16)>
    requires { k < field_parts }
    ensures { finding_of result ≡ broken_from k (numbers_of k (view h.now) ∷ []) }
{
    host::whole(h);
    let number = (0..numbers_in(k)).position(|i| !number_in_range(h, k, i as u16));
    in_part(k, number)
}

// The first field with a number out of range.
fn in_fields(h: &Host) -> Option<(u8, u16)>
    ensures { finding_of result ≡ broken_from 0 (number_parts (columns (view h.now))) }
{
    for k in 0..FIELDS {
        let found = in_field(h, k);
        if found.is_some() {
            return found;
        }
    }
    None
}

// ---- a rule

fn in_third(h: &Host) -> Option<(u8, u16)>
    ensures { finding_of result ≡ broken_from 0 (parts_of 3 (view h.now)) }
{
    host::whole(h);
    let address = (0..GUESTS * PHYSICALS).position(|i| !held(h, i as u8));
    in_part(0, address).or_else(|| {
        let page = (0..PAGES).position(|p| !registered(h, Ma(p as u8)));
        in_part(1, page)
    })
}

fn in_ninth(h: &Host) -> Option<(u8, u16)>
    ensures { finding_of result ≡ broken_from 0 (parts_of 9 (view h.now)) }
{
    let way = (0..WAYS).position(|w| !stealth_way(h, w as u8));
    in_part(0, way).or_else(|| in_part(1, (!stealth_begun(h)).then_some(0)))
}

// Place by place rules 6 and 10 are slow; so first whether there is one to be found.

fn in_sixth(h: &Host) -> Option<(u8, u16)>
    ensures { finding_of result ≡ broken_from 0 (parts_of 6 (view h.now)) }
{
    host::whole(h);
    if rules::rule6(h) {
        return None;
    }
    in_part(0, (0..PAGES).position(|p| !page_unshared(h, Ma(p as u8))))
}

fn in_tenth(h: &Host) -> Option<(u8, u16)>
    ensures { finding_of result ≡ broken_from 0 (parts_of 10 (view h.now)) }
{
    host::whole(h);
    if rules::rule10(h) {
        return None;
    }
    in_fields(h)
        .or_else(|| {
            let call = (0..GUESTS).position(|g| !call_fits(h, Guest(g as u8)));
            in_part(FIELDS, call)
        })
        .or_else(|| {
            let line = (0..LINES).position(|i| !line_zero(h, i as u8));
            in_part(FIELDS + 1, line)
        })
        .or_else(|| {
            let slot = (0..SLOTS).position(|i| !slot_zero(h, i as u8));
            in_part(FIELDS + 2, slot)
        })
}

pub fn first_broken(h: &Host, rule: u8) -> Finding
    ensures { result ≡ finding_to (first_broken rule (view h.now)) }
{
    host::whole(h);
    let found = match rule {
        1 => in_part(0, (0..GUESTS).position(|g| !call_kept(h, Guest(g as u8)))),
        2 => in_part(0, (0..PAGES).position(|p| !page_kept(h, Ma(p as u8)))),
        3 => in_third(h),
        4 => in_part(0, (0..PAGES * ADDRESSES).position(|i| !entry_own(h, i))),
        5 => in_part(
            0,
            (0..GUESTS).position(|g| !current_table(h, Guest(g as u8))),
        ),
        6 => in_sixth(h),
        7 => in_part(0, (0..LINES).position(|i| !line(h, i as u8))),
        8 => in_part(0, (0..SLOTS).position(|i| !slot(h, i as u8))),
        9 => in_ninth(h),
        10 => in_tenth(h),
        11 => in_part(0, (0..LINES).position(|i| !through(h, i as u8))),
        _ => return Finding::NoRule,
    };
    found.map_or(Finding::Holds, |(part, place)| Finding::Broken(part, place))
}
