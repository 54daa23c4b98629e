// The map of free pages as a number: digit n marks page n.
#![tactic(auto)]

ghost use Rattle.std.specs.Prelude.{◌≡◌, ◌^◌, ◌<◌};
ghost use Rattle.laws.specs.Choice.{pick};
ghost use Rattle.laws.specs.Search.{count_below};
ghost use Rattle.laws.specs.Bits.{marks, marked, unmarked};
ghost use Rattle.model.specs.Sizes.{pages};
ghost use Rattle.model.specs.State.{is_page};
ghost use Rattle.model.specs.Checks.{lowest_free};
ghost use Rattle.numbers.specs.Lead.{toward};

use numbers::{Ma, PAGES};

fn one_bit(n: u8) -> u64
    requires { n < pages }
    ensures { result ≡ 2 ^ n }
{
    1u64 << n
}

// No page past the last is marked.
pub fn is_marked(m: u64, p: Ma) -> bool
    ensures { result ≡ marks m p.0 }
{
    let n = p.0;
    if n < PAGES {
        (m / one_bit(n)) % 2 == 1
    } else {
        false
    }
}

pub fn with_mark(m: u64, p: Ma) -> u64
    ensures { result ≡ pick (is_page p.0) (marked m p.0) m }
{
    let n = p.0;
    if n < PAGES {
        if is_marked(m, p) { m } else { m + one_bit(n) }
    } else {
        m
    }
}

pub fn without_mark(m: u64, p: Ma) -> u64
    ensures { result ≡ unmarked m p.0 }
{
    if is_marked(m, p) { m - one_bit(p.0) } else { m }
}

fn lowest_digit(m: u64) -> u32
    ensures { result ≡ lowest_free m }
{
    m.trailing_zeros()
}

// The lowest page that is marked, if one is.
pub fn lowest(m: u64) -> Option<Ma>
    ensures { result ≡ toward (lowest_free m) }
{
    let page = lowest_digit(m) as u8;
    (page < PAGES).then_some(Ma(page))
}

pub fn count(m: u64) -> u32
    ensures { result ≡ count_below pages (marks m) }
{
    m.count_ones()
}
