// The sender (RULES 7): a payload into records of frames, over a lent transfer-ID map.
#![tactic(auto)]

mod check;
mod frames;
pub mod laws;

ghost use Rattle.std.specs.Prelude.{◌≡◌, true, ◌*◌, ◌≤◌, length};
ghost use Rattle.id_map.specs.Layout.{map_of};
ghost use Rattle.id_map.specs.Sound.{sound_map};
ghost use Rattle.rules.specs.Limits.{payload_max, frame_record};
ghost use Rattle.rules.specs.Map.{slot_for};
ghost use Rattle.rules.specs.Sending.{frame_count, topic_of, send_in, send_step};
ghost use Rattle.rules.specs.SendingLaws.{InRange};
ghost use Rattle.sender.specs.Send.{call_of, returned, lent, sends};

use answers::{Dispatch, SendError};
use rules::limits::{FRAME_RECORD, PAYLOAD};

// What is to be sent, but for its payload. The transfer ID is for a response and the discriminator for an anonymous message; elsewhere they are ignored.
#[derive(Clone, Copy)]
pub struct Outgoing {
    pub own: u32,
    pub transfer_type: u32,
    pub type_id: u32,
    pub destination: u32,
    pub priority: u32,
    pub signature: u64,
    pub time: u64,
    pub transfer_id: u32,
    pub discriminator: u32,
}

// A message or a request: the transfer ID comes from the map.
fn number(
    map: &mut [u8],
    c: Outgoing,
    payload: &[u8],
    out: &mut [u8],
) -> Result<Dispatch, SendError>
    requires ready { (sound_map map.old ≡ true) × InRange (call_of c payload.now) }
    requires fits { (c.transfer_type ≡ 2 → ⊥) × ((length payload.now ≤ payload_max) × (frame_record * frame_count (length payload.now) ≤ length out.old)) }
    ensures { returned result map.new out.new ≡ lent map.old out.old (send_in (slot_for (topic_of (call_of c payload.now)) c.time (map_of map.old)) (call_of c payload.now) (map_of map.old)) }
{
    let k = id_map::entry::key_of(c.transfer_type, c.type_id, c.destination);
    let i = id_map::find::place(map, k, c.time);
    if 31 < i {
        return Err(SendError::MapFull);
    }
    let transfer = id_map::entry::drawn(map, i, k);
    id_map::entry::store(map, i, k, (transfer + 1) % 32, c.time);
    frames::write(out, frames::id(c), transfer, c.signature, payload);
    Ok(Dispatch {
        frames: frames::count(payload.len()),
        transfer,
    })
}

// On a map without a fault.
fn dispatch(
    map: &mut [u8],
    c: Outgoing,
    payload: &[u8],
    out: &mut [u8],
) -> Result<Dispatch, SendError>
    requires { sound_map map.old ≡ true }
    ensures { returned result map.new out.new ≡ lent map.old out.old (send_step (call_of c payload.now) (map_of map.old) (length out.old)) }
{
    let n = payload.len();
    if check::not_sendable(c, payload) {
        return Err(SendError::NotSendable);
    }
    if PAYLOAD < n {
        return Err(SendError::TooLong);
    }
    let frames = frames::count(n);
    if out.len() < FRAME_RECORD * frames {
        return Err(SendError::OutputSmall);
    }
    if c.transfer_type == 2 {
        let transfer = c.transfer_id as u8;
        frames::write(out, frames::id(c), transfer, c.signature, payload);
        return Ok(Dispatch { frames, transfer });
    }
    number(map, c, payload, out)
}

// Sends a payload: the answer, the map after and the output buffer (RULES 7.3, 7.6). A map at fault answers 20.
pub fn send(
    map: &mut [u8],
    c: Outgoing,
    payload: &[u8],
    out: &mut [u8],
) -> Result<Dispatch, SendError>
    ensures { returned result map.new out.new ≡ sends map.old (call_of c payload.now) out.old }
{
    if id_map::sound::is_sound(map) {
        return dispatch(map, c, payload, out);
    }
    Err(SendError::Faulty)
}
