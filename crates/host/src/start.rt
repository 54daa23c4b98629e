// The fresh machine, stored byte by byte whatever the bytes were, write-back or with the policy that is asked for.
ghost use Rattle.std.specs.Prelude.{◌≡◌, ◌*◌, ◌≤◌, ◌<◌, length};
ghost use Rattle.model.specs.Sizes.{guests, physicals};
ghost use Rattle.model.specs.Fresh.{fresh_owner, fresh_kind, fresh_physical, fresh_with, fresh};
ghost use Rattle.laws.specs.Cut.{begin};
ghost use Rattle.host.specs.View.{sizes, bytes, view, physical_field};
ghost use Rattle.host.specs.FreshBytes.{fresh_map, later_byte, fresh_byte};
ghost use Rattle.host.specs.Policies.{policy_number};

use super::layout::{CACHEABLE_AT, CURRENT_AT, ENTRY_AT, FREE_AT, KIND_AT, MODE_AT, PHYSICAL_AT};
use super::{
    FIRST_FREE_PAGE, GUESTS, Host, KIND_DATA, KIND_NONE, KIND_TABLE, OWNER_GUEST, OWNER_HOST,
    OWNER_NONE, PHYSICALS, RUNNING, SIZE, WRITE_BACK, WRITE_THROUGH, WritePolicy, set_policy,
};

const FIRST_FREE: usize = FIRST_FREE_PAGE as usize;

fn fresh_owner(p: usize) -> u8
    ensures { result ≡ fresh_owner p }
{
    if p < GUESTS {
        return p as u8 + OWNER_GUEST;
    }
    if p < FIRST_FREE {
        OWNER_HOST
    } else {
        OWNER_NONE
    }
}

fn fresh_kind(p: usize) -> u8
    ensures { result ≡ fresh_kind p }
{
    if p < GUESTS {
        return KIND_TABLE;
    }
    if p < FIRST_FREE { KIND_DATA } else { KIND_NONE }
}

// Page g plus one at guest g's physical 0.
fn fresh_physical(i: usize) -> u8
    requires { i < guests * physicals }
    ensures { result ≡ fresh_physical i }
{
    if i % PHYSICALS == 0 {
        (i / PHYSICALS) as u8 + 1
    } else {
        0
    }
}

// Byte k of the map: whole bytes, since the first free page is a multiple of 8 and the pages are 64.
fn fresh_map(k: usize) -> u8
    ensures { result ≡ fresh_map k }
{
    if k < FIRST_FREE / 8 { 0 } else { 255 }
}

// The byte at place i, from the physical places on.
fn later_byte(i: usize) -> u8
    requires { begin sizes physical_field ≤ i }
    ensures { result ≡ later_byte i }
{
    if i < FREE_AT {
        return fresh_physical(i - PHYSICAL_AT);
    }
    if i < CURRENT_AT {
        return fresh_map(i - FREE_AT);
    }
    if i == MODE_AT { RUNNING } else { 0 }
}

// The byte at place i.
fn fresh_byte(i: usize) -> u8
    ensures { result ≡ fresh_byte i }
{
    if i < KIND_AT {
        return fresh_owner(i);
    }
    if i < CACHEABLE_AT {
        return fresh_kind(i - KIND_AT);
    }
    if i < ENTRY_AT {
        return 1;
    }
    if i < PHYSICAL_AT {
        return 0;
    }
    later_byte(i)
}

pub fn fresh(h: &mut Host)
    ensures { view h.new ≡ fresh }
{
    for (i, byte) in h.iter_mut().enumerate() {
        *byte = fresh_byte(i);
    }
}

impl From<WritePolicy> for u8 {
    ghost from_gives = { λ p n. n ≡ policy_number p };

    fn from(p: WritePolicy) -> u8 {
        match p {
            WritePolicy::Back => WRITE_BACK,
            WritePolicy::Through => WRITE_THROUGH,
        }
    }
}

pub fn fresh_with(h: &mut Host, p: WritePolicy)
    ensures { view h.new ≡ fresh_with (policy_number p) }
{
    fresh(h);
    set_policy(h, u8::from(p));
}
