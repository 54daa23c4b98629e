// Records that lie one after another, each judged where it lies, its answer stored.
ghost use Rattle.std.specs.Prelude.{◌≡◌, true, ◌+◌, ◌*◌, ◌-◌, ◌≤◌, length};
ghost use Rattle.std.proofs.lemmas.List.Edits.{sets};
ghost use Rattle.model.specs.Sizes.{record_bytes, answer_bytes};
ghost use Rattle.host.specs.View.{view};
ghost use Rattle.model.specs.Journal.{answer_bytes_of};
ghost use Rattle.reader.specs.Walk.{is_record, number_in};
ghost use Rattle.steps.specs.Promises.{by_number, numbered};
ghost use Rattle.steps.specs.Turns.{Turns, Plays, Stores};

use super::judge;
use host::Host;
use numbers::Refusal;
use reader::{Found, Reader};

// An answer's bytes.
pub const ANSWER: usize = 8;

// where its value starts
pub const ANSWER_VALUE: usize = 4;

// The answer with its refusal as a number.
pub fn by_number(a: Result<u32, Refusal>) -> Result<u32, u8>
    ensures { result ≡ by_number a }
{
    match a {
        Ok(v) => Ok(v),
        Err(r) => Err(u8::from(r)),
    }
}

// Number, three zeros, value low byte first: of what is done the number 0, of what is refused the value 0.
fn bytes_of(a: Result<u32, u8>) -> [u8; ANSWER]
    ensures { result ≡ answer_bytes_of (numbered a) }
{
    let (number, value) = match a {
        Ok(v) => (0, v),
        Err(n) => (n, 0),
    };
    let [v0, v1, v2, v3] = value.to_le_bytes();
    [number, 0, 0, 0, v0, v1, v2, v3]
}

// The answer's bytes, for a caller that has it alone, and its refusal as a number: any number, so that a caller may have refusals of its own.
pub fn put_answer(out: &mut [u8; ANSWER], a: Result<u32, u8>)
    ensures { out.new ≡ answer_bytes_of (numbered a) }
{
    *out = bytes_of(a);
}

// The bytes, from a place on.
fn put(out: &mut [u8], at: usize, bytes: [u8; ANSWER])
    requires { at + answer_bytes ≤ length out.old }
    ensures { out.new ≡ sets out.old at bytes }
{
    out[at..at + ANSWER].copy_from_slice(&bytes);
}

// The answer, as answer i; 1 if it is done.
pub(crate) fn store(out: &mut [u8], i: usize, a: Result<u32, Refusal>) -> usize
    requires { answer_bytes * i + answer_bytes ≤ length out.old }
    ensures { Stores out.old i a result out.new }
{
    let done = usize::from(a.is_ok());
    put(out, ANSWER * i, bytes_of(by_number(a)));
    done
}

// The record that the reader found, judged where it lies; 1 if it is done.
fn judge_found(h: &mut Host, j: &[u8], found: Found, out: &mut [u8], i: usize) -> usize
    requires is { is_record found ≡ true }
    requires record { number_in found + record_bytes ≤ length j.now }
    requires room { answer_bytes * i + answer_bytes ≤ length out.old }
    ensures { Turns (view h.old) j.now (number_in found) out.old i result (view h.new) out.new }
{
    match found {
        Found::Record(at) => {
            let a = judge(h, &j[at..at + reader::RECORD]);
            store(out, i, a)
        }
        Found::End(_) => 0,
    }
}

pub(crate) fn play(h: &mut Host, j: &[u8], start: usize, out: &mut [u8], n: usize) -> usize
    requires records { record_bytes * n ≤ length j.now - start }
    requires room { answer_bytes * n ≤ length out.old }
    ensures { Plays (view h.old) j.now start n out.old result (view h.new) out.new }
{
    let mut accepted = 0;
    let mut reader = Reader::new(j, start);
    for i in 0..n {
        accepted += judge_found(h, j, reader.found(), out, i);
        reader = reader.moved();
    }
    accepted
}
