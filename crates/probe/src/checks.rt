// What a check says of each rule of a machine, and what is printed of an image.
use super::{Buffer, MOST, receive, receive_host, send, send_number};
use host::Host;

// The rule numbers that are asked for: those from 0 to one past the last, and one more that is far off.
const RULES: u8 = 13;

const FAR: u8 = 255;

// What a check says of a rule.
fn send_finding(h: &Host, rule: u8) {
    let f = broken::first_broken(h, rule);
    send(&[broken::number_of(f), broken::part_of(f)]);
    send_number(usize::from(broken::place_of(f)));
}

// A machine; then what is found of each rule.
pub(crate) fn check() {
    let h = receive_host();
    for rule in (0..RULES).chain([FAR]) {
        send_finding(&h, rule);
    }
}

// An image and a buffer with what it holds; then the status, how many bytes were typed, and the buffer.
pub(crate) fn report(length: u16, room: u16) {
    let mut image: Buffer = [0; MOST];
    let mut out: Buffer = [0; MOST];
    let image = receive(&mut image, length);
    let out = receive(&mut out, room);
    let p = report::of_image(image, out);
    send(&[u8::from(p.status)]);
    send_number(p.bytes);
    send(out);
}
