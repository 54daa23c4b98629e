// What a program that prints a page says of its input when it ends.
ghost use Rattle.std.specs.Prelude.{◌≡◌};

// Passed: the input was run, or loaded, or keeps all rules. TurnedAway: it was not, or does not. Failed: something could not be read or written.
#[derive(Clone, Copy, PartialEq, Eq)]
pub enum Status {
    Passed,
    TurnedAway,
    Failed,
}

// The digit that the program says.
impl From<Status> for u8 {
    ghost use Rattle.print.specs.Status.{digit_of};

    ghost from_gives = { λ s d. d ≡ digit_of s };

    fn from(s: Status) -> u8 {
        b'0' + s as u8
    }
}

// How many bytes were typed, and the status. Not the typed part of the buffer: what may not change, report::of_host and output::run, speaks of all of it.
#[derive(Clone, Copy)]
pub struct Printed {
    pub bytes: usize,
    pub status: Status,
}
