// Journals of so many bytes, their records silent, with so many bytes of room for answers.
use super::show::{number, say};
use host::Host;
use journal::Report;
use numbers::Refusal;

const JOURNAL: usize = 8 + 8 * 4097;

const ROOM: usize = 8 * 4096;

fn show_ran(ran: Result<Report, Refusal>) {
    match ran {
        Ok(r) => {
            say(" done");
            for n in [r.taken, r.accepted, r.refused, r.left_over] {
                number(n as u64);
            }
        }
        Err(refusal) => {
            say(" refused");
            number(u8::from(refusal) as u64);
        }
    }
    say("\n");
}

fn edge(h: &mut Host, journal: &[u8], answers: &mut [u8]) {
    say("journal");
    number(journal.len() as u64);
    number(answers.len() as u64);
    show_ran(journal::run(h, journal, answers));
}

fn short(h: &mut Host, bytes: &[u8; JOURNAL], answers: &mut [u8; ROOM]) {
    edge(h, &bytes[..0], answers);
    edge(h, &bytes[..7], answers);
    edge(h, &bytes[..8], &mut answers[..0]);
    edge(h, &bytes[..15], &mut answers[..0]);
    edge(h, &bytes[..16], &mut answers[..8]);
    edge(h, &bytes[..16], &mut answers[..7]);
    edge(h, &bytes[..23], &mut answers[..8]);
}

fn long(h: &mut Host, bytes: &[u8; JOURNAL], answers: &mut [u8; ROOM]) {
    edge(h, &bytes[..32776], answers);
    edge(h, &bytes[..32783], answers);
    edge(h, &bytes[..32783], &mut answers[..32767]);
    edge(h, bytes, answers);
}

pub(crate) fn edges(h: &mut Host) {
    say("edges of a journal\n");
    host::fresh(h);
    let mut bytes = [0u8; JOURNAL];
    bytes[..4].copy_from_slice(b"RPJ\x01");
    let mut answers = [0u8; ROOM];
    short(h, &bytes, &mut answers);
    long(h, &bytes, &mut answers);
}
