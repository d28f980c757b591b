// What the call answers (RULES 13.1, 19.1).
ghost use Rattle.std.specs.Prelude.{◌≡◌};
ghost use Rattle.judge_capture.specs.Answer.{refusal_number, refused_frame};

use super::records::Failure;

// Why a capture does not pass.
#[derive(Clone, Copy, Debug, PartialEq, Eq)]
pub enum Refusal {
    // A frame fails.
    Fails(Failure),
    // 22
    NoCapture,
    // 13: subscriptions that no setup takes.
    Unacceptable,
}

pub type Verdict = Result<(), Refusal>;

impl Refusal {
    pub fn number(self) -> u8
        ensures { result ≡ refusal_number self }
    {
        match self {
            Refusal::Fails(failure) => failure.condition.0,
            Refusal::NoCapture => 22,
            Refusal::Unacceptable => 13,
        }
    }

    // The frame that the number is for, counted from 0; 0 where there is none.
    pub fn frame(self) -> usize
        ensures { result ≡ refused_frame self }
    {
        match self {
            Refusal::Fails(failure) => failure.index,
            Refusal::NoCapture => 0,
            Refusal::Unacceptable => 0,
        }
    }
}
