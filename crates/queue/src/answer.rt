// What refuses a call on a queue (RULES 13.1, 20.3).
ghost use Rattle.std.specs.Prelude.{◌≡◌};
ghost use Rattle.queue.specs.Answer.{error_number};

#[derive(Clone, Copy, Debug, PartialEq, Eq)]
pub enum QueueError {
    // a record's ID has more than 29 bits
    LargeId,
    // a record has no data, or more than a frame has
    BadLength,
    OutputSmall,
    // too few places
    Full,
    // the bytes end inside of a record
    PartRecord,
    Faulty,
}

impl QueueError {
    pub fn number(self) -> u32
        ensures { result ≡ error_number self }
    {
        match self {
            QueueError::LargeId => 2,
            QueueError::BadLength => 3,
            QueueError::OutputSmall => 8,
            QueueError::Full => 9,
            QueueError::PartRecord => 15,
            QueueError::Faulty => 20,
        }
    }
}
