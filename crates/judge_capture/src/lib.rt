// A capture is judged (RULES 19): the call, and its parts, which the program `judge` runs on a file block by block.
#![tactic(auto)]

pub mod laws;
pub mod records;
pub mod verdict;

ghost use Rattle.std.specs.Prelude.{◌≡◌, ◌^◌, ◌≤◌, ◌<◌, length};
ghost use Rattle.judge_capture.specs.Answer.{frame_of};
ghost use Rattle.judge_capture.specs.Judge.{captured, judges};
ghost use Rattle.state.specs.Layout.{size, setup_of};

use capture_convert::trailer;
use verdict::{Refusal, Verdict};

// The verdict on a capture under the subscriptions of a receiver's state.
fn of_capture(state: &[u8], capture: &[u8]) -> Verdict
    requires { size ≤ length state.now }
    ensures { (result ≡ captured (setup_of state.now) capture.now) × (frame_of result < 2 ^ 32) }
{
    let Some(from) = trailer::find(capture) else {
        return Err(Refusal::NoCapture);
    };
    let to = capture.len() - trailer::SIZE;
    let mut table = [0u64; judge_streams::SIZE];
    match records::feed(state, &mut table, &capture[from..to]) {
        Ok(()) => Ok(()),
        Err(failure) => Err(Refusal::Fails(failure)),
    }
}

// Judges a capture under subscriptions (records of 13 bytes, as a setup takes them): 13, 22, or the verdict. The subscriptions are set up in a receiver's
// state, which takes 5,680 bytes of stack.
pub fn judge(subscriptions: &[u8], capture: &[u8]) -> Verdict
    ensures value { result ≡ judges subscriptions.now capture.now }
    ensures result_bound { frame_of result < 2 ^ 32 }
{
    let mut state = [0u8; state::layout::SIZE];
    match setup::setup(&mut state, 0, subscriptions) {
        Ok(()) => of_capture(&state, capture),
        Err(_) => Err(Refusal::Unacceptable),
    }
}
