// The reader walks the journal in place: a struct that holds the journal and a position. A loop holds one; who asks once, at a place, takes a `turn`.
#![tactic(auto)]

ghost use Rattle.std.specs.Prelude.{◌≡◌, length};
ghost use Rattle.reader.specs.Walk.{found_at, reader_at, moved_of, turn_at};

// Bytes of a journal's header: where the first record starts.
pub const HEADER: usize = 8;

// Bytes of a record.
pub const RECORD: usize = 8;

#[derive(Clone, Copy)]
pub struct Reader<'a> {
    pub journal: &'a [u8],
    pub position: usize,
}

// A record and where it starts, or the end and how many bytes are left over. No Result: neither is a failure, and Err(3) would not say that 3 bytes
// are left over.
#[derive(Clone, Copy, PartialEq, Eq)]
pub enum Found {
    Record(usize),
    End(usize),
}

// What was found at a position, and the position after it.
#[derive(Clone, Copy)]
pub struct Turned {
    pub found: Found,
    pub position: usize,
}

impl<'a> Reader<'a> {
    pub fn new(journal: &'a [u8], position: usize) -> Reader<'a>
        ensures { result ≡ reader_at journal.entry position }
    {
        Reader { journal, position }
    }

    // Past the end no byte is left.
    pub fn found(self) -> Found
        ensures { result ≡ found_at (length self.entry.journal.now) self.entry.position }
    {
        let bytes = self.journal.len().saturating_sub(self.position);
        if bytes < RECORD {
            Found::End(bytes)
        } else {
            Found::Record(self.position)
        }
    }

    // After the record there; at the end the same.
    pub fn moved(self) -> Reader<'a>
        ensures { result ≡ moved_of self.entry }
    {
        match self.found() {
            Found::Record(start) => Reader {
                position: start + RECORD,
                ..self
            },
            Found::End(_) => self,
        }
    }
}

// One turn of a walk: a reader stands at the position, reads, and moves on.
pub fn turn(journal: &[u8], position: usize) -> Turned
    ensures { result ≡ turn_at (length journal.now) position }
{
    let reader = Reader::new(journal, position);
    Turned {
        found: reader.found(),
        position: reader.moved().position,
    }
}
