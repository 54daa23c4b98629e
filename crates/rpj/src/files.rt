// The program's words and files: standard input, the image that it starts from, and the one that it saves. ./rpj names the images by two words, of which
// an empty one stands for no image, and says by a third that the input is run as it arrives, by a fourth that the host is to be write-through, by a fifth
// that the first image is to be checked. Each of these may be empty, and is then not said.
use host::Host;
use print::Page;
use std::env::{Env, FillError};
use std::fs::{OpenFile, OpenOptions};
use std::io::{ErrorKind, Read, Write};
use std::rt::Files;
use std::{fs, io};

// The words of ./rpj, by their places.
#[derive(Clone, Copy)]
pub(crate) enum Word {
    From = 1,
    To,
    Stream,
    Through,
    Check,
}

// One byte more than an image has: a longer one is refused alike.
pub(crate) const IMAGE: usize = image::SIZE + 1;

// What holds any path; and .new behind it.
const PATH: usize = 4096;

const BESIDE: usize = PATH + 4;

pub(crate) fn is_said(rt: &impl Env, word: Word) -> bool {
    let mut said = [0u8; PATH];
    rt.arg(word as usize, &mut said).is_ok_and(|n| n > 0)
}

// The file that a word names: the library takes names as text alone, and has no file of another name.
fn named<'a>(rt: &impl Env, word: Word, name: &'a mut [u8; PATH]) -> io::Result<Option<&'a str>> {
    match rt.arg(word as usize, name) {
        Ok(0) | Err(FillError::NotPresent) => Ok(None),
        Ok(n) => match str::from_utf8(&name[..n]) {
            Ok(name) => Ok(Some(name)),
            Err(_) => Err(io::Error::from(ErrorKind::InvalidInput)),
        },
        Err(FillError::TooLong) => Err(io::Error::from(ErrorKind::InvalidInput)),
    }
}

// ---- reading

// Reads until buf is full or the input ends, and answers the bytes that came.
pub(crate) fn read_all<'a>(input: &mut impl Read, buf: &'a mut [u8]) -> io::Result<&'a [u8]> {
    let mut done: usize = 0;
    while done < buf.len() {
        let more = input.read(&mut buf[done..])?;
        if more == 0 {
            break;
        }
        done += more;
    }
    Ok(&buf[..done])
}

// The bytes of the image that ./rpj names, or none where it names none.
pub(crate) fn read_image<'a>(
    rt: &(impl Env + Files),
    image: &'a mut [u8; IMAGE],
) -> io::Result<Option<&'a [u8]>> {
    let mut name = [0u8; PATH];
    match named(rt, Word::From, &mut name)? {
        Some(name) => {
            let mut file = fs::open(rt, name)?;
            Ok(Some(read_all(&mut file, image)?))
        }
        None => Ok(None),
    }
}

// ---- saving

// The folder of a file.
fn folder_of(name: &str) -> &str {
    match name.rsplit_once('/') {
        Some((folder, _)) if folder.is_empty() => "/",
        Some((folder, _)) => folder,
        None => ".",
    }
}

// A new name of a file outlives a loss of power only once its folder is synced.
fn sync_folder(rt: &impl Files, name: &str) -> io::Result<()> {
    fs::open(rt, folder_of(name))?.sync_all()
}

// The file is closed then.
fn write_synced(mut file: impl Write + OpenFile + Drop, bytes: &[u8]) -> io::Result<()> {
    file.write_all(bytes)?;
    file.sync_all()
}

// A file that was not there before.
fn create<R: Files>(rt: &R, name: &str) -> io::Result<R::File> {
    OpenOptions::new()
        .write(true)
        .create_new(true)
        .open(rt, name)
}

// The new file is whole before it takes the old one's name. It is made anew: one that a crash left there might be another name of the old file.
fn replace(rt: &impl Files, name: &str, beside: &str, bytes: &[u8]) -> io::Result<()> {
    let _ = fs::remove_file(rt, beside);
    let file = create(rt, beside)?;
    let put = write_synced(file, bytes).and_then(|()| fs::rename(rt, beside, name));
    if let Err(e) = put {
        let _ = fs::remove_file(rt, beside);
        return Err(e);
    }
    sync_folder(rt, name)
}

// The name with .new behind it.
#[tactic(auto, unfolding(print::specs::Pages::typed_all_on))]
fn name_beside<'a>(name: &str, beside: &'a mut [u8; BESIDE]) -> Option<&'a str> {
    let mut page = Page::new(beside);
    page.text(name);
    page.text(".new");
    let end = page.place();
    str::from_utf8(beside.get(..end)?).ok()
}

fn save_to(rt: &impl Files, name: &str, h: &Host) -> io::Result<()> {
    let mut image = [0u8; image::SIZE];
    let mut beside = [0u8; BESIDE];
    if image::save(h, &mut image).is_err() {
        return Err(io::Error::from(ErrorKind::InvalidData));
    }
    match name_beside(name, &mut beside) {
        Some(beside) => replace(rt, name, beside, &image),
        None => Err(io::Error::from(ErrorKind::InvalidInput)),
    }
}

// To the image that ./rpj names, if it names one.
pub(crate) fn save_image(rt: &(impl Env + Files), h: &Host) -> io::Result<()> {
    let mut name = [0u8; PATH];
    match named(rt, Word::To, &mut name)? {
        Some(name) => save_to(rt, name, h),
        None => Ok(()),
    }
}
