// The whole state as an image of bytes: opened, loaded and saved. docs/HOST.md, "Images".
#![tactic(auto)]

ghost use Rattle.std.specs.Prelude.{◌≡◌, ◌++◌, ◌≤◌, length, drop};
ghost use Rattle.model.specs.Image.{image_bytes, is_image, Image, image_of, held};
ghost use Rattle.host.specs.View.{view};
ghost use Rattle.image.specs.Promises.{Opens, Loads, Saves};

use host::Host;
use numbers::Refusal;

// The bytes before the fields: the mark, then the version's two, low byte first.
const HEAD: usize = 5;

// The bytes of an image of the version that is written.
pub const SIZE: usize = HEAD + host::SIZE;

// What an image starts with, and how many bytes it has.
#[derive(Clone, Copy)]
struct Version {
    head: [u8; HEAD],
    size: usize,
}

// The first one has no policy, which is the last byte.
const FIRST: Version = Version {
    head: *b"RPS\x01\x00",
    size: SIZE - 1,
};

const WRITTEN: Version = Version {
    head: *b"RPS\x02\x00",
    size: SIZE,
};

const VERSIONS: [Version; 2] = [FIRST, WRITTEN];

// Mark, version and length are those of an image.
fn is_image(image: &[u8]) -> bool
    ensures { result ≡ is_image image.now }
{
    VERSIONS
        .iter()
        .any(|v| image.len() == v.size && image.starts_with(&v.head))
}

// ---- the fields

// The bytes in the first places; the others stay. A loop: what copy_from_slice does here becomes memmove, which the archive for C asks of nobody.
fn fill(to: &mut [u8], from: &[u8])
    requires { length from.now ≤ length to.old }
    ensures { to.new ≡ from.now ++ drop (length from.now) to.old }
{
    for i in 0..from.len() {
        to[i] = from[i];
    }
}

// Write-back, unless the image has a policy.
fn take(h: &mut Host, image: &[u8])
    requires { Image image.now }
    ensures { view h.new ≡ held image.now }
{
    host::set_policy(h, host::WRITE_BACK);
    fill(h, &image[HEAD..]);
}

fn put(out: &mut [u8], h: &Host)
    requires { length out.old ≡ image_bytes }
    ensures { out.new ≡ image_of (view h.now) }
{
    out[..HEAD].copy_from_slice(&WRITTEN.head);
    fill(&mut out[HEAD..], h);
}

// ---- open, load, save

// The state is the one that the image holds, whatever that is.
pub fn open(h: &mut Host, image: &[u8]) -> Result<(), Refusal>
    ensures { Opens (view h.old) image.now result (view h.new) }
{
    if !is_image(image) {
        return Err(Refusal::NotImage);
    }
    take(h, image);
    Ok(())
}

// The image's state is judged apart, so that a refusal leaves every byte.
pub fn load(h: &mut Host, image: &[u8]) -> Result<(), Refusal>
    ensures { Loads (view h.old) image.now result (view h.new) }
{
    if !is_image(image) {
        return Err(Refusal::NotImage);
    }
    let mut apart: Host = [0; host::SIZE];
    take(&mut apart, image);
    if !rules::valid(&apart) {
        return Err(Refusal::NotValid);
    }
    *h = apart;
    Ok(())
}

pub fn save(h: &Host, out: &mut [u8]) -> Result<(), Refusal>
    ensures { Saves (view h.now) out.old result out.new }
{
    if !rules::valid(h) {
        Err(Refusal::NotValid)
    } else if out.len() != SIZE {
        Err(Refusal::NotImage)
    } else {
        put(out, h);
        Ok(())
    }
}
