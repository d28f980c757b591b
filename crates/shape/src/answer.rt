// What the calls of every message answer with (RULES 9.6, 9.7).
ghost use Rattle.std.specs.Prelude.{◌≡◌};
ghost use Rattle.shape.specs.Answer.{number_of};

// Why a reader or a writer refuses. A reader answers with what it read, a writer with the number of bytes written.
#[derive(Clone, Copy, Debug, PartialEq, Eq)]
pub enum Refusal {
    // the buffer is too short
    NoRoom,
    // the payload ends inside of a field
    TooShort,
    // a list is too long, or bytes are left over
    TooLong,
    // a list, or what it holds, is not allowed
    NotAllowed,
    // bits left over are not zero
    Padding,
    // no case of the union has the tag
    NoCase,
}

impl Refusal {
    // Its number in RULES.
    pub fn number(self) -> u32
        ensures { result ≡ number_of self }
    {
        match self {
            Refusal::NoRoom => 8,
            Refusal::TooShort => 15,
            Refusal::TooLong => 16,
            Refusal::NotAllowed => 17,
            Refusal::Padding => 25,
            Refusal::NoCase => 27,
        }
    }
}

// Where a list is in the payload that was read (RULES 9.9): its first byte and its length. For an empty list, where it would start.
#[derive(Clone, Copy)]
pub struct Place {
    pub at: usize,
    pub len: usize,
}
