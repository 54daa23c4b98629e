// One set of the cache as an array of lines, taken by value, one way replaced, handed back; loaded from the host's bytes and put back there.
#![tactic(auto)]

mod lines; // the cache in the host's bytes
mod page; // a number that is known to be a page

ghost use Rattle.std.specs.Prelude.{◌≡◌, ◌≤◌, ◌<◌};
ghost use Rattle.laws.specs.Choice.{pick};
ghost use Rattle.model.specs.Sizes.{sets, ways, lines};
ghost use Rattle.host.specs.View.{view};
ghost use Rattle.cache.specs.Sets.{line_from, set_from, empty_line, if_below, has_key_in, find_in, empty_way, place_in, replaced_in, used_in, entered_in};
ghost use Rattle.cache.specs.Lines.{put_whole, put_back};

use host::{Held, Host, Ma, Va};
pub use lines::{access, fill, take_out, take_out_page};
pub use page::MachinePage;

pub const WAYS: usize = host::WAYS;

// A line: its address, what it holds of a page, and its value.
#[derive(Clone, Copy)]
pub struct Line {
    pub address: Va,
    pub page: Held,
    pub value: u32,
}

// A set: its ways and its history.
#[derive(Clone, Copy)]
pub struct Set {
    pub ways: [Line; WAYS],
    pub history: u8,
}

// ---- a line by value

impl Line {
    // Every number 0.
    fn empty() -> Line
        ensures { result ≡ empty_line }
    {
        Line {
            address: Va(0),
            page: host::held_for(None),
            value: 0,
        }
    }

    // Whether it has the key: page and address.
    pub fn has_key(self, a: Va, p: Ma) -> bool
        ensures { result ≡ has_key_in self a.0 p.0 }
    {
        host::leads_to(host::lead_in(self.page), p) && self.address == a
    }
}

// ---- a set by value

impl Set {
    // The way with the key.
    pub fn find(self, a: Va, p: Ma) -> Option<usize>
        ensures { result ≡ if_below ways (find_in self a.0 p.0) }
    {
        self.ways.iter().position(|l| l.has_key(a, p))
    }

    // The lower empty way.
    fn empty_way(self) -> Option<usize>
        ensures { result ≡ if_below ways (empty_way self) }
    {
        self.ways.iter().position(|l| host::is_empty(l.page))
    }

    // The way for a line that enters: the lower empty one; if none, the one the history names.
    #[tactic(auto, using(crate::proofs::Found::below_else), unfolding(crate::specs::Sets::place_in))]
    pub fn place(self) -> usize
        ensures { result ≡ place_in self }
    {
        self.empty_way().unwrap_or(self.history as usize)
    }

    // One way replaced; nothing past the last.
    pub fn replaced(self, w: usize, l: Line) -> Set
        ensures { result ≡ replaced_in self w l }
    {
        let mut t = self;
        if w < WAYS {
            t.ways[w] = l;
        }
        t
    }

    // After a hit in way w: as it was.
    pub fn used(self, w: usize) -> Set
        ensures { result ≡ used_in self w }
    {
        self
    }

    // After a line entered way w: the history names the next way, after the last the first.
    pub fn entered(self, w: usize) -> Set
        ensures { result ≡ entered_in self w }
    {
        Set {
            history: if w < WAYS - 1 { (w + 1) as u8 } else { 0 },
            ..self
        }
    }
}

// ---- a set of the bytes

fn line_at(h: &Host, i: usize) -> Line
    ensures { result ≡ line_from (view h.now) i }
{
    Line {
        address: host::line_address(h, i),
        page: host::line_held(h, i),
        value: host::line_value(h, i),
    }
}

fn set_at(h: &Host, k: usize) -> Set
    requires { k ≤ sets }
    ensures { result ≡ set_from (view h.now) k }
{
    Set {
        ways: std::array::from_fn(|w| line_at(h, WAYS * k + w)),
        history: host::history(h, k),
    }
}

// Set k; past the last set each number is 0.
#[tactic(auto, using(crate::proofs::Sets::set_past, host::proofs::Inverse::view_sized))]
pub fn load(h: &Host, k: usize) -> Set
    ensures { result ≡ set_from (view h.now) k }
{
    set_at(h, k.min(host::SETS))
}

// Line i is l; nothing past the last.
#[tactic(auto, unfolding(crate::specs::Lines::put_whole, host::specs::View::put, host::specs::View::put_line))]
fn put_line(h: &mut Host, i: usize, l: Line)
    ensures { view h.new ≡ put_whole (view h.old) i l }
{
    host::set_line_address(h, i, l.address);
    host::set_line_held(h, i, l.page);
    host::set_line_value(h, i, l.value);
}

fn put_set(h: &mut Host, k: usize, s: Set)
    requires { k < sets }
    ensures { view h.new ≡ put_back (view h.old) k s }
{
    for (w, l) in s.ways.iter().enumerate() {
        put_line(h, WAYS * k + w, *l);
    }
    host::set_history(h, k, s.history);
}

// Set k is s, each way and the history: all that writes a line of the bytes. Nothing past the last set.
#[tactic(auto, using(crate::proofs::Whole::put_back_past, host::proofs::Inverse::view_sized))]
pub fn put_back(h: &mut Host, k: usize, s: Set)
    ensures { view h.new ≡ put_back (view h.old) k s }
{
    if k < host::SETS {
        put_set(h, k, s);
    }
}
