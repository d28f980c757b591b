// What an allocatee does after a call, and what refuses one (RULES 13.1, 21.3).
ghost use Rattle.std.specs.Prelude.{◌≡◌, Ok, Err};
ghost use Rattle.allocatee.specs.Answer.{number_of, length_in, wait_in, node_in};
ghost use Rattle.allocatee.specs.declared.answer.AllocateeError.TheVariants.{Message};

use shape::answer::Refusal;

// A payload to send: its length, and in how many microseconds there is something to do after it.
#[derive(Clone, Copy)]
pub struct Sending {
    pub len: usize,
    pub wait: u64,
}

// `Waits` holds the microseconds until there is something to do, `Has` the node ID.
#[derive(Clone, Copy)]
pub enum Step {
    Waits(u64),
    Sends(Sending),
    Has(u32),
}

impl Step {
    // The length of what is to be sent; 0 if nothing is.
    pub fn length(self) -> usize
        ensures { result ≡ length_in (Ok self) }
    {
        match self {
            Step::Waits(_) => 0,
            Step::Sends(s) => s.len,
            Step::Has(_) => 0,
        }
    }

    // The microseconds until there is something to do.
    pub fn wait(self) -> u64
        ensures { result ≡ wait_in (Ok self) }
    {
        match self {
            Step::Waits(n) => n,
            Step::Sends(s) => s.wait,
            Step::Has(_) => 0,
        }
    }

    // The node ID; 0 if there is none yet.
    pub fn node(self) -> u32
        ensures { result ≡ node_in (Ok self) }
    {
        match self {
            Step::Waits(_) => 0,
            Step::Sends(_) => 0,
            Step::Has(n) => n,
        }
    }
}

#[derive(Clone, Copy, Debug, PartialEq, Eq)]
pub enum AllocateeError {
    OutputSmall,
    // the preferred node ID is above 127
    NodeId,
    // the unique ID has not 16 bytes
    UniqueId,
    // what the message is refused with
    Message(Refusal),
    Faulty,
}

impl AllocateeError {
    pub fn number(self) -> u32
        ensures { result ≡ number_of (Err self) }
    {
        match self {
            AllocateeError::OutputSmall => 8,
            AllocateeError::NodeId => 13,
            AllocateeError::UniqueId => 17,
            AllocateeError::Message(r) => r.number(),
            AllocateeError::Faulty => 20,
        }
    }
}

impl From<Refusal> for AllocateeError {
    ghost from_gives = { λ r e. e ≡ Message r };

    fn from(r: Refusal) -> AllocateeError {
        AllocateeError::Message(r)
    }
}
