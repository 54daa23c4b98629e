// Runs of the rule book, and the edges of a journal: answers, and what is then in memory, marks and lines. The second
// program prints the same from a state of its own.
#![tactic(auto)]

mod edges; // edges.rt: journals of the lengths where the answer changes
mod show; // show.rt: what is printed

use host::Host;
use numbers::code_of;
use show::{say, say_line};

// A record without a value; the answer's number.
fn give(h: &mut Host, kind: u8, a: u8, b: u8, call: u8) -> u8 {
    let answer = steps::step(h, &[kind, a, b, call, 0, 0, 0, 0]);
    code_of(answer.map(|_| ()))
}

fn show_answer(h: &mut Host, bytes: &[u8; 8]) {
    match steps::step(h, bytes) {
        Ok(value) => say_line("answer", &[0, value as u64]),
        Err(refusal) => say_line("answer", &[u8::from(refusal) as u64, 0]),
    }
}

fn read(h: &mut Host, va: u8) {
    say_line("read", &[va as u64]);
    show_answer(h, &[1, va, 0, 0, 0, 0, 0, 0]);
}

fn write(h: &mut Host, va: u8, low: u8, high: u8) {
    say_line("write", &[va as u64, low as u64 + 256 * high as u64]);
    show_answer(h, &[3, va, 0, 0, low, high, 0, 0]);
}

// The guest calls, the host acts and the guest runs again; the three answers.
fn call(h: &mut Host, kind: u8, call: u8, a: u8, b: u8) {
    let asked = give(h, 10, a, b, call);
    let acted = give(h, kind, a, b, 0);
    let back = give(h, 12, 0, 0, 0);
    say_line("call", &[call, a, b].map(u64::from));
    say_line("answers", &[asked, acted, back].map(u64::from));
}

fn new(h: &mut Host, va: u8, pa: u8) {
    call(h, 5, 1, va, pa);
}

fn pin(h: &mut Host, pa: u8) {
    call(h, 13, 4, pa, pa % 2);
}

// A data page pinned and mapped.
fn page_at(h: &mut Host, pa: u8, va: u8) {
    call(h, 13, 4, pa, 0);
    new(h, va, pa);
}

// Control, another guest, which then runs.
fn go(h: &mut Host, guest: u8) {
    let left = give(h, 11, 0, 0, 0);
    let there = give(h, 8, guest, 0, 0);
    let runs = give(h, 12, 0, 0, 0);
    say_line("guest", &[guest as u64]);
    say_line("answers", &[left, there, runs].map(u64::from));
}

fn page_and_set(h: &Host) {
    show::page(h, 8);
    show::set(h, 0);
}

// A page at 0, written; then at 1 too.
fn mapped_twice(h: &mut Host) {
    say("a page at 0, then at 1 too\n");
    host::fresh(h);
    page_at(h, 1, 0);
    write(h, 0, 44, 1);
    read(h, 0);
    read(h, 1);
    page_and_set(h);
    new(h, 1, 1);
    page_and_set(h);
    read(h, 1);
    show::set(h, 1);
}

// Three pages of one set.
fn third_takes_out(h: &mut Host) {
    say("pages at 0, 8 and 16\n");
    host::fresh(h);
    page_at(h, 1, 0);
    page_at(h, 2, 8);
    page_at(h, 3, 16);
    write(h, 0, 70, 0);
    read(h, 0);
    read(h, 8);
    page_and_set(h);
    read(h, 16);
    page_and_set(h);
}

fn fourteen_pins(h: &mut Host) {
    for pa in 1..15 {
        pin(h, pa);
    }
}

fn other_guests(h: &mut Host) {
    for guest in 1..4 {
        go(h, guest);
        fourteen_pins(h);
    }
}

// Every free page, by all guests; then one more.
fn all_pages(h: &mut Host) {
    say("all pages pinned\n");
    host::fresh(h);
    fourteen_pins(h);
    other_guests(h);
    say_line("free", &[host::free_pages(h) as u64]);
    one_more(h);
}

// Refused; then one page is given back.
fn one_more(h: &mut Host) {
    pin(h, 15);
    let there = give(h, 8, 2, 0, 0);
    let runs = give(h, 12, 0, 0, 0);
    say_line("answers", &[there as u64, runs as u64]);
    call(h, 14, 5, 3, 0);
    say_line("free", &[host::free_pages(h) as u64]);
    pin(h, 15);
    say_line("free", &[host::free_pages(h) as u64]);
}

fn main() {
    let mut h: Host = [0; host::SIZE];
    mapped_twice(&mut h);
    third_takes_out(&mut h);
    all_pages(&mut h);
    edges::edges(&mut h);
}
