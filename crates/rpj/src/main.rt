// The program: a journal from standard input, on the fresh machine of either policy or on the state of an image, its output to standard output, and the
// state after it to another image; or the check of an image. No contract says what is read or written, so this file, files.rt and stream.rt are to be
// read: they hand what they read to `output::load`, and to `output::run` or `output::feed`, or to `report::of_image`, and write the text and say the
// status that these answer. The status of docs/HOST.md, "Journal and program" and "Checking", is said on a descriptor of its own, which ./rpj reads: its
// exit status would be one with that of a program that was stopped or not started.
#![tactic(auto)]

mod files; // files.rt: the words of ./rpj, the images that it names, and reading
mod stream; // stream.rt: a journal that is run as it arrives

ghost use Rattle.std.specs.Prelude.{◌≡◌, OnOk};
ghost use Rattle.print.specs.declared.status.Status.TheVariants.{Passed};

use files::{IMAGE, Word, is_said, read_all, read_image, save_image};
use host::{Host, WritePolicy};
use print::Status;
use std::env::Env;
use std::io::Input;
use std::rt::Files;

const STDOUT_FILENO: i32 = 1;

const STDERR_FILENO: i32 = 2;

const STATUS_FILENO: i32 = 3;

// The header and one record more than a journal may have: of a longer input the rest decides nothing, since these are refused alike.
const INPUT: usize = reader::HEADER + reader::RECORD * (journal::LIMIT + 1);

const ANSWERS: usize = steps::ANSWER * journal::LIMIT;

// The longest output: a line for each record, of at most 4, 3 and 10 digits, two spaces and its end; and 64 bytes for the others.
const OUTPUT: usize = 20 * journal::LIMIT + 64;

// The longest line of an image that is refused, `refused 16` and its end.
const REFUSAL: usize = 11;

// Why no more is done.
#[derive(Clone, Copy)]
enum Stop {
    // what was printed says it
    TurnedAway,
    NoImage,
    OtherPolicy,
    UnreadImage,
    UnreadInput,
    UnwrittenOutput,
    UnwrittenImage,
}

impl Stop {
    // Never that all went well.
    fn status(self) -> Status
        ensures { result ≡ Passed → ⊥ }
    {
        match self {
            Stop::TurnedAway => Status::TurnedAway,
            _ => Status::Failed,
        }
    }

    fn words(self) -> &'static str {
        match self {
            Stop::TurnedAway => "",
            Stop::NoImage => "rpj: wrong use: no image to check\n",
            Stop::OtherPolicy => "rpj: wrong use: --write-through, and the image is write-back\n",
            Stop::UnreadImage => "rpj: the image cannot be read\n",
            Stop::UnreadInput => "rpj: the input cannot be read\n",
            Stop::UnwrittenOutput => "rpj: the output cannot be written\n",
            Stop::UnwrittenImage => "rpj: the image cannot be written\n",
        }
    }
}

// The text; what its status turns away ends the program.
fn put(text: &[u8], status: Status) -> Result<(), Stop>
    ensures { OnOk result (status ≡ Passed) }
{
    if !io::write_all(STDOUT_FILENO, text) {
        return Err(Stop::UnwrittenOutput);
    }
    match status {
        Status::Passed => Ok(()),
        _ => Err(Stop::TurnedAway),
    }
}

fn load(h: &mut Host, image: &[u8]) -> Result<(), Stop> {
    let mut out = [0u8; REFUSAL];
    let p = output::load(h, image, &mut out);
    put(&out[..p.bytes], p.status)
}

fn check(image: &[u8]) -> Result<(), Stop> {
    let mut out = [0u8; report::SIZE];
    let p = report::of_image(image, &mut out);
    put(&out[..p.bytes], p.status)
}

fn run(h: &mut Host, input: &[u8]) -> Result<(), Stop> {
    let mut answers = [0u8; ANSWERS];
    let mut out = [0u8; OUTPUT];
    let p = output::run(h, input, &mut answers, &mut out);
    put(&out[..p.bytes], p.status)
}

fn policy_asked(rt: &impl Env) -> WritePolicy {
    if is_said(rt, Word::Through) {
        WritePolicy::Through
    } else {
        WritePolicy::Back
    }
}

// The image has its own policy, and is judged before that.
fn load_as_asked(rt: &impl Env, h: &mut Host, image: &[u8]) -> Result<(), Stop> {
    load(h, image)?;
    if is_said(rt, Word::Through) && host::policy(h) != host::WRITE_THROUGH {
        return Err(Stop::OtherPolicy);
    }
    Ok(())
}

fn start(rt: &impl Env, h: &mut Host, image: Option<&[u8]>) -> Result<(), Stop> {
    match image {
        Some(image) => load_as_asked(rt, h, image),
        None => {
            host::fresh_with(h, policy_asked(rt));
            Ok(())
        }
    }
}

// All is read before anything is printed.
fn run_whole(rt: &(impl Env + Input), h: &mut Host, image: Option<&[u8]>) -> Result<(), Stop> {
    let mut input = [0u8; INPUT];
    let input = read_all(&mut rt.reader(), &mut input).map_err(|_| Stop::UnreadInput)?;
    start(rt, h, image)?;
    run(h, input)
}

// The image is judged before anything is read.
fn run_streamed(rt: &(impl Env + Input), h: &mut Host, image: Option<&[u8]>) -> Result<(), Stop> {
    start(rt, h, image)?;
    stream::run(&mut rt.reader(), h)
}

// An image is saved once all is printed.
fn run_from(rt: &(impl Env + Files + Input), image: Option<&[u8]>) -> Result<(), Stop> {
    let mut h: Host = [0; host::SIZE];
    if is_said(rt, Word::Stream) {
        run_streamed(rt, &mut h, image)?;
    } else {
        run_whole(rt, &mut h, image)?;
    }
    save_image(rt, &h).map_err(|_| Stop::UnwrittenImage)
}

fn whole(rt: &(impl Env + Files + Input)) -> Result<(), Stop> {
    let mut image = [0u8; IMAGE];
    let image = read_image(rt, &mut image).map_err(|_| Stop::UnreadImage)?;
    if is_said(rt, Word::Check) {
        return check(image.ok_or(Stop::NoImage)?);
    }
    run_from(rt, image)
}

fn main(rt: HostRuntime) {
    let status = match whole(&rt) {
        Ok(()) => Status::Passed,
        Err(stop) => {
            io::write_all(STDERR_FILENO, stop.words().as_bytes());
            stop.status()
        }
    };
    io::write_all(STATUS_FILENO, &[u8::from(status)]);
}
