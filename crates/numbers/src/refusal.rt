// Refusals, by the numbers of docs/HOST.md.
ghost use Rattle.std.specs.Prelude.{◌≡◌};
ghost use Rattle.numbers.specs.Refusals.{refusal_number, code_of};

// Why an action, a journal, a piece of one or an image is refused, in the order in which it is asked.
#[derive(Clone, Copy, Debug, PartialEq, Eq)]
pub enum Refusal {
    NotValid = 1,
    NoRecord,
    WrongMode,
    WrongCall,
    Reserved,
    Unmapped,
    NoPage,
    OtherKind,
    Stealthy,
    Taken,
    NoneFree,
    InUse,
    NoJournal,
    TooLong,
    NoRoom,
    NotImage,
}

impl From<Refusal> for u8 {
    ghost from_gives = { λ r n. n ≡ refusal_number r };

    fn from(r: Refusal) -> u8 {
        r as u8
    }
}

// 0 where nothing is refused.
pub fn code_of(r: Result<(), Refusal>) -> u8
    ensures { result ≡ code_of r }
{
    match r {
        Ok(()) => 0,
        Err(e) => u8::from(e),
    }
}
