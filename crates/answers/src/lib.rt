// What the calls of the transport answer (RULES 13.1), with the number of each: of a setup and a send what refuses it, of a reception an enum, since most
// of its cases refuse nothing. What a reader has to tell apart is the number and, of a reception, the transfer that was handed out.
#![tactic(auto)]

pub mod word;

ghost use Rattle.std.specs.Prelude.{◌≡◌, ◌<◌, Err};
ghost use Rattle.answers.specs.Reception.{reason_number, number_of, no_transfer, transfer_in};
ghost use Rattle.answers.specs.Sending as sending;
ghost use Rattle.answers.specs.Setup as setup;

// A transfer that was handed out: its length, stream, the closing frame's priority and transfer ID.
#[derive(Clone, Copy)]
pub struct Transfer {
    pub len: usize,
    pub transfer_type: u8,
    pub type_id: u16,
    pub source: u8,
    pub destination: u8,
    pub priority: u8,
    pub transfer: u8,
}

// Why a frame is passed over (RULES 4.6).
#[derive(Clone, Copy)]
pub enum Reason {
    NoTransfer,
    WrongToggle,
    WrongTransfer,
    RepeatedStart,
    OtherInterface,
}

// The receiver's answers. `Refused` holds the number of the frame check, 2 to 8 or 19: one case, as `refused` of the rules' answer is (rules/specs/Answer.antt).
#[derive(Clone, Copy)]
pub enum Answer {
    Taken,
    Handed(Transfer),
    Refused(u8),
    Full,
    Passed(Reason),
    TooLong,
    NoBlock,
    BadChecksum,
    Faulty,
}

// Why a receiver, a transfer-ID map, a queue or an allocator is not set up.
#[derive(Clone, Copy, Debug, PartialEq, Eq)]
pub enum SetupError {
    Unacceptable,
    Short,
}

// What a send made: how many frames, and their transfer ID.
#[derive(Clone, Copy)]
pub struct Dispatch {
    pub frames: usize,
    pub transfer: u8,
}

// Why nothing is sent.
#[derive(Clone, Copy, Debug, PartialEq, Eq)]
pub enum SendError {
    OutputSmall,
    MapFull,
    TooLong,
    NotSendable,
    Faulty,
}

fn no_transfer() -> Transfer
    ensures { result ≡ no_transfer }
{
    Transfer {
        len: 0,
        transfer_type: 0,
        type_id: 0,
        source: 0,
        destination: 0,
        priority: 0,
        transfer: 0,
    }
}

impl Reason {
    pub fn number(self) -> u64
        ensures { (result ≡ reason_number self) × (result < 256) }
    {
        match self {
            Reason::NoTransfer => 30,
            Reason::WrongToggle => 31,
            Reason::WrongTransfer => 32,
            Reason::RepeatedStart => 33,
            Reason::OtherInterface => 34,
        }
    }
}

impl Answer {
    pub fn number(self) -> u64
        ensures { (result ≡ number_of self) × (result < 256) }
    {
        match self {
            Answer::Taken => 0,
            Answer::Handed(_) => 1,
            Answer::Refused(n) => n as u64,
            Answer::Full => 9,
            Answer::Passed(r) => r.number(),
            Answer::TooLong => 11,
            Answer::NoBlock => 26,
            Answer::BadChecksum => 12,
            Answer::Faulty => 20,
        }
    }

    // The transfer that was handed out; all zero under any other answer.
    pub fn transfer(self) -> Transfer
        ensures { result ≡ transfer_in self }
    {
        match self {
            Answer::Handed(t) => t,
            _ => no_transfer(),
        }
    }
}

impl SetupError {
    pub fn number(self) -> u32
        ensures { result ≡ setup.number_of (Err self) }
    {
        match self {
            SetupError::Unacceptable => 13,
            SetupError::Short => 20,
        }
    }
}

// The number of a setup's answer.
pub fn setup_number(answer: Result<(), SetupError>) -> u32
    ensures { result ≡ setup.number_of answer }
{
    match answer {
        Ok(()) => 0,
        Err(e) => e.number(),
    }
}

impl SendError {
    pub fn number(self) -> u64
        ensures { (result ≡ sending.number_of (Err self)) × (result < 256) }
    {
        match self {
            SendError::OutputSmall => 8,
            SendError::MapFull => 9,
            SendError::TooLong => 11,
            SendError::NotSendable => 14,
            SendError::Faulty => 20,
        }
    }
}
