// Text typed into a lent buffer, from its start or from any place on: a byte, a text, a number in decimal. What has no room is left out.
//
//     let mut page = Page::new(out);
//     page.text("refused ");
//     page.number(16);
//     page.byte(b'\n');
//     Printed { bytes: page.place(), status: Status::TurnedAway }
//
// A function that types on its caller's page takes `page: &mut Page` and promises `page.new ≡ typed_all_on page.old ..`; by the attribute
// `#[tactic(auto, using(print::proofs::Pages::typing))]` it mostly needs no proof file. One that makes the page promises
// `page out.new result.bytes ≡ typed_all (page out.old 0) ..`, with `#[tactic(auto, unfolding(print::specs::Pages::typed_all_on))]`.
#![tactic(auto)]

mod status; // status.rt: with which status a program ends that prints a page

ghost use Rattle.std.specs.Prelude.{◌≡◌, ◌^◌, ◌<◌};
ghost use Rattle.print.specs.Text.{digit, places_of, decimal_of};
ghost use Rattle.print.specs.Pages.{blank, begun, typed_on, typed_all_on};

pub use status::{Printed, Status};

// ---- the digits of a number

// A number of 64 bits has so many at most.
const PLACES: usize = 20;

const POWERS: [u64; PLACES] = [
    1,
    10,
    100,
    1000,
    10000,
    100000,
    1000000,
    10000000,
    100000000,
    1000000000,
    10000000000,
    100000000000,
    1000000000000,
    10000000000000,
    100000000000000,
    1000000000000000,
    10000000000000000,
    100000000000000000,
    1000000000000000000,
    10000000000000000000,
];

fn power(i: usize) -> u64
    requires { i < 20 }
    ensures { result ≡ 10 ^ i }
{
    POWERS[i]
}

fn digit_at(n: u64, i: usize) -> u8
    requires { i < 20 }
    ensures { result ≡ digit n i }
{
    b'0' + (n / power(i) % 10) as u8
}

fn places(n: u64) -> usize
    ensures { (result ≡ places_of n) × (result < 21) }
{
    let mut k = 1;
    while k < PLACES && power(k) <= n {
        k += 1;
    }
    k
}

// ---- a page

// The lent buffer, and the place where the next byte goes. No `fmt::Write`: `write!` answers a Result, and what could not fail still cannot.
#[derive(Drop)]
pub struct Page<'a> {
    out: &'a mut [u8],
    place: usize,
}

impl<'a> Page<'a> {
    pub fn new(out: &'a mut [u8]) -> Page<'a>
        ensures { result ≡ blank out.entry }
    {
        Page::at(out, 0)
    }

    // The next byte goes to this place, whatever it is: past the buffer's end nothing has room.
    pub fn at(out: &'a mut [u8], place: usize) -> Page<'a>
        ensures { result ≡ begun out.entry place }
    {
        Page { out, place }
    }

    // Where the next byte goes: on a new page, how many bytes are typed.
    pub fn place(&self) -> usize
        ensures { result ≡ self.now.place }
    {
        self.place
    }

    #[tactic(auto, unfolding(crate::specs::Pages::typed_on))]
    pub fn byte(&mut self, x: u8)
        ensures { self.new ≡ typed_on self.old x }
    {
        if self.place < self.out.len() {
            self.out[self.place] = x;
            self.place += 1;
        }
    }

    pub fn bytes(&mut self, s: &[u8])
        ensures { self.new ≡ typed_all_on self.old s.now }
    {
        for &x in s {
            self.byte(x);
        }
    }

    pub fn text(&mut self, s: &str)
        ensures { self.new ≡ typed_all_on self.old s.now }
    {
        self.bytes(s.as_bytes());
    }

    // In decimal.
    pub fn number(&mut self, n: u64)
        ensures { self.new ≡ typed_all_on self.old (decimal_of n) }
    {
        for i in (0..places(n)).rev() {
            self.byte(digit_at(n, i));
        }
    }
}
