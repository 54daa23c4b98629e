// Test aid: does tasks from standard input by the proved code, and writes what came of each. docs/ARCHITECTURE.md, "The differential run", has the framing.
#![tactic(auto)]

mod checks; // checks.rt: the rules of a machine, and what is printed of an image

use host::{Host, SIZE, WritePolicy};
use journal::Report;
use numbers::{Refusal, code_of};
use pieces::{Fed, KEPT, Kept};

const IN: i32 = 0;

const OUT: i32 = 1;

// A task's first bytes: its kind; the policy of a fresh machine, whether the input ends, or a zero; how many bytes its journal, record, image or piece
// has; how many its buffer has.
const HEAD: usize = 6;

// What a task does, by its first byte.
#[derive(Clone, Copy)]
enum Kind {
    Fresh,
    Given,
    Judge,
    Open,
    Load,
    Save,
    Feed,
    Begin,
    Check,
    Report,
}

impl TryFrom<u8> for Kind {
    type Error = ();

    fn try_from(byte: u8) -> Result<Kind, ()> {
        match byte {
            0 => Ok(Kind::Fresh),
            1 => Ok(Kind::Given),
            2 => Ok(Kind::Judge),
            3 => Ok(Kind::Open),
            4 => Ok(Kind::Load),
            5 => Ok(Kind::Save),
            6 => Ok(Kind::Feed),
            7 => Ok(Kind::Begin),
            8 => Ok(Kind::Check),
            9 => Ok(Kind::Report),
            _ => Err(()),
        }
    }
}

// The second byte of a task: the input ends with its piece; the machine is started with write-through.
const LAST: u8 = 1;

const THROUGH: u8 = 1;

// Stands for the largest allowance that there is.
const NO_LIMIT: u16 = u16::MAX;

// As many bytes as a length of 16 bits names, and one more.
const MOST: usize = 65536;

type Buffer = [u8; MOST];

// ---- bytes in and out

// The first n bytes of the buffer, received.
fn receive(buffer: &mut Buffer, n: u16) -> &mut [u8] {
    let part = &mut buffer[..usize::from(n)];
    io::read_full(IN, part);
    part
}

fn receive_host() -> Host {
    let mut h: Host = [0; SIZE];
    io::read_full(IN, &mut h);
    h
}

fn receive_kept() -> Kept {
    let mut k: Kept = [0; KEPT];
    io::read_full(IN, &mut k);
    k
}

fn receive_allowance() -> usize {
    let mut bytes = [0u8; 2];
    io::read_full(IN, &mut bytes);
    match u16::from_le_bytes(bytes) {
        NO_LIMIT => usize::MAX,
        n => usize::from(n),
    }
}

fn send(bytes: &[u8]) {
    io::write_all(OUT, bytes);
}

// The low 16 bits, low byte first.
fn send_number(n: usize) {
    let [low, high, ..] = n.to_le_bytes();
    send(&[low, high]);
}

// ---- results

// The refusal's number, 0 for none, and the report.
fn send_ran(ran: Result<Report, Refusal>) {
    match ran {
        Ok(r) => {
            send(&[0]);
            send_number(r.taken);
            send_number(r.accepted);
            send_number(r.refused);
            send_number(r.left_over);
        }
        Err(refusal) => send(&[u8::from(refusal), 0, 0, 0, 0, 0, 0, 0, 0]),
    }
}

// Number and value.
fn send_answer(answer: Result<u32, Refusal>) {
    let (number, value) = match answer {
        Ok(value) => (0, value),
        Err(refusal) => (u8::from(refusal), 0),
    };
    send(&[number]);
    send(&value.to_le_bytes());
}

// The number, the records that were run and the bytes that were taken.
fn send_fed(fed: Result<Fed, Refusal>) {
    match fed {
        Ok(fed) => {
            send(&[0]);
            send_number(fed.records);
            send_number(fed.bytes);
        }
        Err(refusal) => send(&[u8::from(refusal), 0, 0, 0, 0]),
    }
}

// The eleven rules, then validity.
fn send_rules(h: &Host) {
    let kept = [
        rules::rule1(h),
        rules::rule2(h),
        rules::rule3(h),
        rules::rule4(h),
        rules::rule5(h),
        rules::rule6(h),
        rules::rule7(h),
        rules::rule8(h),
        rules::rule9(h),
        rules::rule10(h),
        rules::rule11(h),
        rules::valid(h),
    ];
    send(&kept.map(u8::from));
}

// ---- tasks

fn fresh(policy: u8) -> Host {
    let mut h: Host = [0; SIZE];
    if policy == THROUGH {
        host::fresh_with(&mut h, WritePolicy::Through);
    } else {
        host::fresh(&mut h);
    }
    h
}

// A journal, an answer buffer with what it holds; then verdict, buffer and machine.
fn run_journal(h: &mut Host, length: u16, room: u16) {
    let mut journal: Buffer = [0; MOST];
    let mut out: Buffer = [0; MOST];
    let journal = receive(&mut journal, length);
    let out = receive(&mut out, room);
    send_ran(journal::run(h, journal, out));
    send(out);
    send(h);
}

// A machine and a record; then the rules, the step's answer and the machine after it.
fn judge(length: u16) {
    let mut h = receive_host();
    let mut record: Buffer = [0; MOST];
    let record = receive(&mut record, length);
    send_rules(&h);
    send_answer(steps::step(&mut h, record));
    send(&h);
}

// A machine and an image; then the number of what loading or opening it answers, and the machine after it. No closure, which would ask to be callable.
fn read_image(loads: bool, length: u16) {
    let mut h = receive_host();
    let mut image: Buffer = [0; MOST];
    let image = receive(&mut image, length);
    let read = if loads {
        image::load(&mut h, image)
    } else {
        image::open(&mut h, image)
    };
    send(&[code_of(read)]);
    send(&h);
}

// A machine and a buffer with what it holds; then the answer's number, buffer and machine.
fn save_image(room: u16) {
    let h = receive_host();
    let mut out: Buffer = [0; MOST];
    let out = receive(&mut out, room);
    send(&[code_of(image::save(&h, out))]);
    send(out);
    send(&h);
}

// An allowance, a machine, what is kept, a piece, an answer buffer with what it holds; then the answer, what is kept, buffer and machine.
fn feed(last: bool, length: u16, room: u16) {
    let mut piece: Buffer = [0; MOST];
    let mut out: Buffer = [0; MOST];
    let allowance = receive_allowance();
    let mut h = receive_host();
    let mut k = receive_kept();
    let piece = receive(&mut piece, length);
    let out = receive(&mut out, room);
    send_fed(pieces::feed(&mut h, &mut k, piece, allowance, last, out));
    send(&k);
    send(out);
    send(&h);
}

// What is kept, then what is kept at the beginning.
fn begin() {
    let mut k = receive_kept();
    pieces::begin(&mut k);
    send(&k);
}

fn perform(kind: Kind, second: u8, length: u16, room: u16) {
    match kind {
        Kind::Fresh => run_journal(&mut fresh(second), length, room),
        Kind::Given => run_journal(&mut receive_host(), length, room),
        Kind::Judge => judge(length),
        Kind::Open => read_image(false, length),
        Kind::Load => read_image(true, length),
        Kind::Save => save_image(room),
        Kind::Feed => feed(second == LAST, length, room),
        Kind::Begin => begin(),
        Kind::Check => checks::check(),
        Kind::Report => checks::report(length, room),
    }
}

// None at the end of the input, or of a byte that is no kind.
fn task() -> Option<()> {
    let mut head = [0u8; HEAD];
    if io::read_full(IN, &mut head) < HEAD {
        return None;
    }
    let [kind, second, length, length_high, room, room_high] = head;
    let kind = Kind::try_from(kind).ok()?;
    let length = u16::from_le_bytes([length, length_high]);
    let room = u16::from_le_bytes([room, room_high]);
    perform(kind, second, length, room);
    Some(())
}

// A proved loop has to end, and nothing says that the input does.
fn main() {
    for _ in 0..u64::MAX {
        if task().is_none() {
            break;
        }
    }
}
