// The cache in the host's bytes: lines taken out, lines that enter, and what an access does.
ghost use Rattle.std.specs.Prelude.{◌≡◌, true, ◌≤◌, ◌<◌, Some, None};
ghost use Rattle.laws.specs.Choice.{pick};
ghost use Rattle.model.specs.Sizes.{sets, ways, lines, byte_bound, set_of};
ghost use Rattle.model.specs.State.{lead, is_page, is_cacheable, line_of_page, present};
ghost use Rattle.model.specs.Parts.{take_out, take_out_page, enter};
ghost use Rattle.host.specs.View.{view, put_memory};
ghost use Rattle.cache.specs.Sets.{if_below, set_from, find_in, empty_line, line_to};
ghost use Rattle.cache.specs.Lines.{put_whole, missed, AccessesLine, through_for, Accesses, is_of, cleared_below};

use super::{Line, MachinePage, Set, WAYS, line_at, load, put_back};
use host::{Host, Ma, Va};

// ---- one line

fn line_to(a: Va, p: MachinePage, v: u32) -> Line
    ensures { result ≡ line_to a.0 p.0 v }
{
    Line {
        address: a,
        page: host::held_for(Some(p.ma)),
        value: v,
    }
}

// Line i is l: one way of its set replaced. Nothing past the last.
fn replace_line(h: &mut Host, i: usize, l: Line)
    ensures { view h.new ≡ put_whole (view h.old) i l }
{
    let k = i / WAYS;
    let s = load(h, k);
    put_back(h, k, s.replaced(i % WAYS, l));
}

// The line's value goes to memory, if the line leads to a page.
fn save(h: &mut Host, l: Line)
    ensures { view h.new ≡ put_memory (view h.old) (lead l.page.0) l.value }
{
    if let Some(p) = host::lead_in(l.page) {
        host::set_memory(h, p, l.value);
    }
}

// Its value to memory first, and then it is empty.
#[tactic(auto, using(crate::proofs::Whole::taken_out))]
pub fn take_out(h: &mut Host, i: usize)
    ensures { view h.new ≡ take_out (view h.old) i }
{
    let l = line_at(h, i);
    save(h, l);
    replace_line(h, i, Line::empty());
}

// The line (a, p) enters line i, with memory's value of the page.
#[tactic(auto, using(crate::proofs::Whole::enters, crate::proofs::Found::at_page))]
pub fn fill(h: &mut Host, i: usize, a: Va, p: Ma)
    ensures { view h.new ≡ pick (is_page p.0) (enter (view h.old) i a.0 p.0) (view h.old) }
{
    if let Some(page) = MachinePage::of(p) {
        let v = host::memory(h, p);
        replace_line(h, i, line_to(a, page, v));
    }
}

// ---- an access

// A damaged history may name a way past the last of set k, which is s: the line that the model then fills is no line of this set.
#[tactic(auto, using(crate::proofs::Accesses::enters_past))]
fn miss_past(h: &mut Host, k: usize, s: Set, w: usize, a: Va, p: MachinePage)
    requires { (k < sets) × (w < byte_bound) × (s ≡ set_from (view h.old) k) }
    ensures { view h.new ≡ missed (view h.old) k w a.0 p.0 }
{
    let i = WAYS * k + w;
    put_back(h, k, s.entered(w));
    take_out(h, i);
    fill(h, i, a, p.ma);
}

// A line of a cacheable page enters set k, which is s, and the one in its way is taken out.
fn miss(h: &mut Host, k: usize, s: Set, a: Va, p: MachinePage, written: Option<u32>) -> u32
    requires { (k ≡ set_of a.0) × (is_cacheable (view h.old).shape p.0 ≡ true) × (s ≡ set_from (view h.old) k) × (ways ≤ find_in s a.0 p.0) }
    ensures { AccessesLine (view h.old) a.0 p.0 written result (view h.new) }
{
    let w = s.place();
    match s.ways.get(w) {
        Some(old) => {
            save(h, *old);
            let v = host::memory(h, p.ma);
            let l = line_to(a, p, written.unwrap_or(v));
            put_back(h, k, s.replaced(w, l).entered(w));
            v
        }
        None => {
            miss_past(h, k, s, w, a, p);
            0
        }
    }
}

fn access_set(h: &mut Host, a: Va, p: MachinePage, written: Option<u32>) -> u32
    requires { is_cacheable (view h.old).shape p.0 ≡ true }
    ensures { AccessesLine (view h.old) a.0 p.0 written result (view h.new) }
{
    let k = a.0 as usize % host::SETS;
    let s = load(h, k);
    match s.find(a, p.ma) {
        Some(w) => {
            let old = s.ways[w];
            let l = Line {
                value: written.unwrap_or(old.value),
                ..old
            };
            put_back(h, k, s.replaced(w, l).used(w));
            old.value
        }
        None => miss(h, k, s, a, p, written),
    }
}

// Under write-through what is written goes to memory too, whether the access hit or missed.
fn write_through(h: &mut Host, p: Ma, written: Option<u32>)
    ensures { view h.new ≡ through_for written (view h.old) p.0 }
{
    if let Some(n) = written {
        if host::policy(h) == host::WRITE_THROUGH {
            host::set_memory(h, p, n);
        }
    }
}

// The page, if it is cacheable.
fn cacheable_page(h: &Host, p: Ma) -> Option<MachinePage>
    ensures { result ≡ pick (is_cacheable (view h.now).shape p.0) (Some p) None }
{
    if host::cacheable(h, p) == host::CACHEABLE {
        Some(MachinePage { ma: p })
    } else {
        None
    }
}

// The cache's part of a read or a write of page p at address a, and the value there before what is written, if anything is. A page not cacheable changes no line.
pub fn access(h: &mut Host, a: Va, p: Ma, written: Option<u32>) -> u32
    ensures { Accesses (view h.old) a.0 p.0 written result (view h.new) }
{
    match cacheable_page(h, p) {
        Some(page) => {
            let v = access_set(h, a, page, written);
            write_through(h, p, written);
            v
        }
        None => {
            let v = host::memory(h, p);
            if let Some(n) = written {
                host::set_memory(h, p, n);
            }
            v
        }
    }
}

// ---- the lines of a page

// Whether line i is of page p.
fn is_of(h: &Host, i: usize, p: MachinePage) -> bool
    ensures { result ≡ is_of (view h.now).shape p.0 i }
{
    host::leads_to(host::line_page(h, i), p.ma)
}

// The first line of page p.
fn line_of_page(h: &Host, p: MachinePage) -> Option<usize>
    ensures { result ≡ if_below lines (line_of_page (view h.now).shape p.0) }
{
    (0..host::LINES).find(|i| is_of(h, *i, p))
}

// The page's value: its first line's, or memory's if it has no line.
#[tactic(auto, using(crate::proofs::Found::below_some, crate::proofs::Found::below_none), unfolding(model::specs::State::present))]
fn present(h: &Host, p: MachinePage) -> u32
    ensures { result ≡ present (view h.now) p.0 }
{
    match line_of_page(h, p) {
        Some(i) => host::line_value(h, i),
        None => host::memory(h, p.ma),
    }
}

fn clear_line(h: &mut Host, i: usize, p: MachinePage)
    ensures { view h.new ≡ pick (is_of (view h.old).shape p.0 i) (put_whole (view h.old) i empty_line) (view h.old) }
{
    if is_of(h, i, p) {
        replace_line(h, i, Line::empty());
    }
}

// Every line of page p is empty.
fn clear_page(h: &mut Host, p: MachinePage)
    ensures { view h.new ≡ cleared_below lines (view h.old) p.0 }
{
    for i in 0..host::LINES {
        clear_line(h, i, p);
    }
}

// The page's value to memory, and then it has no line. A damaged state may have several lines of it: the first has the value.
#[tactic(auto, using(crate::proofs::Cleared::taken_page, crate::proofs::Found::at_page))]
pub fn take_out_page(h: &mut Host, p: Ma)
    ensures { view h.new ≡ pick (is_page p.0) (take_out_page (view h.old) p.0) (view h.old) }
{
    if let Some(page) = MachinePage::of(p) {
        let v = present(h, page);
        host::set_memory(h, p, v);
        clear_page(h, page);
    }
}
