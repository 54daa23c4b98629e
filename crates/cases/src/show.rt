// What is printed: words and numbers, an answer to a call, a page and a set of the cache.
use host::{Host, Ma};

const STDOUT_FILENO: i32 = 1;

pub(crate) fn say(s: &str) {
    io::write_all(STDOUT_FILENO, s.as_bytes());
}

pub(crate) fn number(n: u64) {
    say(" ");
    io::print_decimal(STDOUT_FILENO, n);
}

// A word and numbers.
pub(crate) fn say_line(word: &str, numbers: &[u64]) {
    say(word);
    for &n in numbers {
        number(n);
    }
    say("\n");
}

pub(crate) fn page(h: &Host, p: u8) {
    say("page");
    number(p as u64);
    say(" memory");
    number(host::memory(h, Ma(p)) as u64);
    say(" cacheable");
    number(host::cacheable(h, Ma(p)) as u64);
    say("\n");
}

fn line(h: &Host, i: usize) {
    match host::line_page(h, i) {
        Some(p) => {
            say(" line");
            number(host::line_address(h, i).0 as u64);
            number(p.0 as u64);
            number(host::line_value(h, i) as u64);
        }
        None => say(" empty"),
    }
}

// The lines of set 0 or 1, as address, page and value, and its history.
pub(crate) fn set(h: &Host, k: u8) {
    say("set");
    number(k as u64);
    let first = host::WAYS * usize::from(k);
    for i in first..first + host::WAYS {
        line(h, i);
    }
    say(" history");
    number(host::history(h, k as usize) as u64);
    say("\n");
}
