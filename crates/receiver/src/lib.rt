// The receiver (RULES 4, 5): one frame on a lent state.
#![tactic(auto)]

mod place;

ghost use Rattle.std.specs.Prelude.{◌≡◌, true};
ghost use Rattle.receiver.specs.Receive.{returned, arrival_of, arriving, lent, received};
ghost use Rattle.receiver.specs.inside.Called.{Accepted};
ghost use Rattle.rules.specs.Frame.{unnamed, payload_of};
ghost use Rattle.rules.specs.Reception.{step, step_anonymous};
ghost use Rattle.session.specs.inside.Session.{stream_of, parsed_of};
ghost use Rattle.state.specs.Layout.{setup_of, places_of};
ghost use Rattle.state.specs.Sound.{sound_state};

use answers::Answer;
use rules::limits::PAYLOAD;
use session::Incoming;

// A frame that passed the checks: an anonymous one is handed out at once, others go to their session.
fn accept(state: &mut [u8], f: Incoming, frame: &[u8], out: &mut [u8]) -> Answer
    requires { Accepted state.old f frame.now out.old }
    ensures { returned result state.new out.new ≡ lent state.old out.old (step_anonymous (unnamed (stream_of f)) (places_of state.old) (parsed_of f (payload_of frame.now))) }
{
    let last = frame.len() - 1;
    if frame::check::is_anonymous(f.head) {
        return session::hand_out(frame, 0, last, f, out);
    }
    place::arrive(state, f, &frame[0..last], out)
}

// Internal. `receive` on a state without a fault, which is not tested again: the frame is read once, then checked.
pub fn receive_sound(
    state: &mut [u8],
    id: u32,
    frame: &[u8],
    interface: u32,
    time: u64,
    out: &mut [u8],
) -> Answer
    requires { sound_state state.old ≡ true }
    ensures { returned result state.new out.new ≡ lent state.old out.old (step (setup_of state.old) (places_of state.old) (arriving (arrival_of id frame.now interface time) out.old)) }
{
    let n = frame.len();
    let unreadable = frame::check::unreadable(id, n, interface);
    if 0 < unreadable {
        return Answer::Refused(unreadable);
    }
    let h = frame::head::read(id, frame[n - 1]);
    let refused = frame::check::refusal(h, n, state[0]);
    if 0 < refused {
        return Answer::Refused(refused);
    }
    let Some(signature) = subscriptions::find(state, frame::check::kind(h), h.type_id as u32) else {
        return Answer::Refused(7);
    };
    if out.len() < PAYLOAD {
        return Answer::Refused(8);
    }
    accept(
        state,
        Incoming {
            head: h,
            signature,
            time,
            interface: (interface % 256) as u8,
        },
        frame,
        out,
    )
}

// One frame with its interface and time: the answer, the state after and the output buffer (RULES 4.9, 5.6). A state at fault answers 20.
pub fn receive(
    state: &mut [u8],
    id: u32,
    frame: &[u8],
    interface: u32,
    time: u64,
    out: &mut [u8],
) -> Answer
    ensures { returned result state.new out.new ≡ received state.old (arrival_of id frame.now interface time) out.old }
{
    if sessions::sound::is_sound(state) {
        return receive_sound(state, id, frame, interface, time, out);
    }
    Answer::Faulty
}
