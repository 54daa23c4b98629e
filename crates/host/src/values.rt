// The state's numbers of more than one byte, its numbers that are no list, and the map of free pages.
ghost use Rattle.std.specs.Prelude.{◌≡◌, ◌+◌, ◌<◌, ◌≤◌, length};
ghost use Rattle.laws.specs.Choice.{pick, at};
ghost use Rattle.laws.specs.Search.{count_below};
ghost use Rattle.laws.specs.Bits.{marks, marked, unmarked};
ghost use Rattle.model.specs.Sizes.{pages};
ghost use Rattle.model.specs.State.{is_page};
ghost use Rattle.model.specs.Checks.{lowest_free};
ghost use Rattle.model.specs.Records.{word_at};
ghost use Rattle.model.specs.Fields.{Small};
ghost use Rattle.host.specs.Words.{set_word};
ghost use Rattle.host.specs.Values.{values_number, extent_of};
ghost use Rattle.host.specs.View.{bytes, view, Whole, worded, put_word, put_memory, put_line, put_active, put_mode, put_policy, put_free};
ghost use Rattle.numbers.specs.Lead.{toward};

use super::layout::{ACTIVE_AT, FREE_AT, LINE_AT, MEMORY_AT, MODE_AT, POLICY_AT};
use super::{Field, Guest, Host, LINES, Ma, PAGES};

// What the type of the buffer says. It does nothing.
fn small(s: &[u8])
    requires { 0 < length s.now }
    ensures { Small s.now }
{
    let x = s[0];
}

pub fn whole(h: &Host)
    ensures { Whole h.now }
{
    small(h);
}

// ---- numbers of four bytes, low byte first

fn word(h: &Host, at: usize) -> u32
    requires { at + 4 ≤ bytes }
    ensures { result ≡ word_at h.now at }
{
    u32::from_le_bytes([h[at], h[at + 1], h[at + 2], h[at + 3]])
}

fn set_word(h: &mut Host, at: usize, v: u32)
    requires { at + 4 ≤ bytes }
    ensures { h.new ≡ set_word h.old at v }
{
    [h[at], h[at + 1], h[at + 2], h[at + 3]] = v.to_le_bytes();
}

// ---- values of pages and lines

// The two that are lists of them.
#[derive(Clone, Copy, PartialEq, Eq)]
enum Values {
    Memory,
    Lines,
}

impl Values {
    // Where it begins, and how many numbers it has.
    fn extent(self) -> Field
        ensures { result ≡ extent_of self }
    {
        let (start, size) = match self {
            Values::Memory => (MEMORY_AT, PAGES),
            Values::Lines => (LINE_AT, LINES),
        };
        Field { start, size }
    }
}

fn get_value(h: &Host, k: Values, i: usize) -> u32
    ensures { result ≡ at (worded (values_number k) (view h.now)) i }
{
    let Field { start, size } = k.extent();
    if i < size { word(h, start + i * 4) } else { 0 }
}

fn set_value(h: &mut Host, k: Values, i: usize, v: u32)
    ensures { view h.new ≡ put_word (values_number k) (view h.old) i v }
{
    let Field { start, size } = k.extent();
    if i < size {
        set_word(h, start + i * 4, v);
    }
}

pub fn memory(h: &Host, p: Ma) -> u32
    ensures { result ≡ at (view h.now).values.memory p.0 }
{
    get_value(h, Values::Memory, p.0 as usize)
}

pub fn set_memory(h: &mut Host, p: Ma, v: u32)
    ensures { view h.new ≡ put_memory (view h.old) p.0 v }
{
    set_value(h, Values::Memory, p.0 as usize, v)
}

pub fn line_value(h: &Host, i: usize) -> u32
    ensures { result ≡ at (view h.now).values.line i }
{
    get_value(h, Values::Lines, i)
}

pub fn set_line_value(h: &mut Host, i: usize, v: u32)
    ensures { view h.new ≡ put_line (view h.old) i v }
{
    set_value(h, Values::Lines, i, v)
}

// ---- the active guest and the mode

pub fn active(h: &Host) -> Guest
    ensures { result.0 ≡ (view h.now).shape.guests.active }
{
    Guest(h[ACTIVE_AT])
}

pub fn set_active(h: &mut Host, g: Guest)
    ensures { view h.new ≡ put_active (view h.old) g.0 }
{
    h[ACTIVE_AT] = g.0;
}

pub fn mode(h: &Host) -> u8
    ensures { result ≡ (view h.now).shape.guests.mode }
{
    h[MODE_AT]
}

pub fn set_mode(h: &mut Host, m: u8)
    ensures { view h.new ≡ put_mode (view h.old) m }
{
    h[MODE_AT] = m;
}

// ---- the policy

pub fn policy(h: &Host) -> u8
    ensures { result ≡ (view h.now).shape.policy }
{
    h[POLICY_AT]
}

pub fn set_policy(h: &mut Host, v: u8)
    ensures { view h.new ≡ put_policy (view h.old) v }
{
    h[POLICY_AT] = v;
}

// ---- the map of free pages: digit n of its number marks page n

fn free(h: &Host) -> u64
    ensures { result ≡ (view h.now).shape.pages.free }
{
    let a = word(h, FREE_AT) as u64;
    let b = word(h, FREE_AT + 4) as u64;
    a + 4294967296 * b
}

fn set_free(h: &mut Host, v: u64)
    ensures { view h.new ≡ put_free (view h.old) v }
{
    set_word(h, FREE_AT, (v % 4294967296) as u32);
    set_word(h, FREE_AT + 4, (v / 4294967296) as u32);
}

pub fn free_pages(h: &Host) -> u32
    ensures { result ≡ count_below pages (marks (view h.now).shape.pages.free) }
{
    marks::count(free(h))
}

pub fn lowest_free(h: &Host) -> Option<Ma>
    ensures { result ≡ toward (lowest_free (view h.now).shape.pages.free) }
{
    marks::lowest(free(h))
}

pub fn is_free(h: &Host, p: Ma) -> bool
    ensures { result ≡ marks (view h.now).shape.pages.free p.0 }
{
    marks::is_marked(free(h), p)
}

pub fn mark_free(h: &mut Host, p: Ma)
    ensures { view h.new ≡ put_free (view h.old) (pick (is_page p.0) (marked (view h.old).shape.pages.free p.0) (view h.old).shape.pages.free) }
{
    let m = free(h);
    set_free(h, marks::with_mark(m, p))
}

pub fn unmark_free(h: &mut Host, p: Ma)
    ensures { view h.new ≡ put_free (view h.old) (unmarked (view h.old).shape.pages.free p.0) }
{
    let m = free(h);
    set_free(h, marks::without_mark(m, p))
}
