// What refuses a message to an allocator (RULES 13.1, 16.3), and what is answered if nothing does: the length of the reply, or None for no reply.
ghost use Rattle.std.specs.Prelude.{◌≡◌, Err};
ghost use Rattle.allocator.specs.Answer.{number_of};

use shape::answer::Refusal;

#[derive(Clone, Copy, Debug, PartialEq, Eq)]
pub enum AllocateError {
    // the own node ID is not 1 to 127
    OwnId,
    // what the message or its reply is refused with
    Message(Refusal),
    // no ID is free: what was gathered is dropped
    Exhausted,
    Faulty,
}

impl AllocateError {
    pub fn number(self) -> u32
        ensures { result ≡ number_of (Err self) }
    {
        match self {
            AllocateError::OwnId => 13,
            AllocateError::Message(r) => r.number(),
            AllocateError::Exhausted => 21,
            AllocateError::Faulty => 20,
        }
    }
}
