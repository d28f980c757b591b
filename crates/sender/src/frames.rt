// The records of a payload's frames (RULES 7.4, 7.5). Data bytes go as one number, low byte first: those that are not used are its zeros.
ghost use Rattle.std.specs.Prelude.{◌≡◌, true, false, [], ◌∷◌, ◌++◌, ◌+◌, ◌*◌, ◌-◌, ◌/◌, ◌%◌, ◌≤◌, ◌<◌, leb, length, take, drop};
ghost use Rattle.bits.specs.Little.{le, le_bytes};
ghost use Rattle.bits.specs.Part.{splice};
ghost use Rattle.rules.specs.Limits.{payload_max, frame_record};
ghost use Rattle.rules.specs.Sending.{frame_count, id_for, record_of, records_of};
ghost use Rattle.rules.specs.SendingLaws.{InRange};
ghost use Rattle.rules.specs.Sent.{framed, pieces, sent};
ghost use Rattle.rules.specs.Tests.{pick};
ghost use Rattle.sender.specs.Send.{call_of};

use super::Outgoing;
use frame::record;
use rules::limits::{FRAME_PAYLOAD, FRAME_RECORD};

// How many frames n payload bytes make.
pub fn count(n: usize) -> usize
    requires { n ≤ payload_max }
    ensures { result ≡ frame_count n }
{
    if n <= FRAME_PAYLOAD {
        return 1;
    }
    (n + 8) / 7
}

// The ID of every frame; it does not depend on the payload.
pub fn id(c: Outgoing) -> u32
    requires { InRange (call_of c []) }
    ensures { result ≡ id_for (call_of c []) }
{
    let priority = 16777216 * c.priority;
    if c.own == 0 {
        return priority + (1024 * c.discriminator + 256 * c.type_id);
    }
    if c.transfer_type == 0 {
        return priority + (256 * c.type_id + c.own);
    }
    let request = (c.transfer_type == 1) as u32;
    priority + (65536 * c.type_id + (32768 * request + (256 * c.destination + (128 + c.own))))
}

// The next frame, from what is unsent: seven bytes, or all that is left and an end. `tail` is the tail byte without the end.
fn next(out: &mut [u8], at: usize, id: u32, unsent: &[u8], tail: u8)
    requires { (at + frame_record ≤ length out.old) × (tail < 192) }
    ensures { out.new ≡ splice out.old at (record_of id (framed (take 7 unsent.now) (pick (leb (length unsent.now) 7) (tail + 64) tail))) }
{
    let left = unsent.len();
    if left <= FRAME_PAYLOAD {
        record::put(out, at, id, left + 1, record::word(unsent, left, tail + 64));
        return;
    }
    record::put(out, at, id, 8, record::word(unsent, 7, tail));
}

// The first frame of several: the checksum, low byte first, and five bytes.
fn first(out: &mut [u8], id: u32, sum: u16, payload: &[u8], tail: u8)
    requires { (frame_record ≤ length out.old) × (5 ≤ length payload.now) }
    ensures { out.new ≡ splice out.old 0 (record_of id (framed (sum % 256 ∷ sum / 256 ∷ take 5 payload.now) tail)) }
{
    let low = (sum % 256) as u64;
    let high = (sum / 256) as u64;
    record::put(
        out,
        0,
        id,
        8,
        (record::word(payload, 5, tail) * 256 + high) * 256 + low,
    );
}

// The frames after the first: each writer gets what is unsent.
fn others(out: &mut [u8], id: u32, transfer: u8, payload: &[u8])
    requires { (transfer < 32) × ((7 < length payload.now) × ((length payload.now ≤ payload_max) × (frame_record * ((length payload.now + 8) / 7) ≤ length out.old))) }
    ensures { out.new ≡ splice out.old 13 (records_of id (pieces ((length payload.now - 6) / 7) false true transfer (drop 5 payload.now))) }
{
    let mut k: usize = 5;
    let mut at: usize = FRAME_RECORD;
    let mut toggle = true;
    // A while: k goes up by seven, and each writer is handed the unsent remainder of the payload.
    while k < payload.len() {
        next(out, at, id, &payload[k..], (toggle as u8) * 32 + transfer);
        k += FRAME_PAYLOAD;
        at += FRAME_RECORD;
        toggle = !toggle;
    }
}

// All frames of a payload.
pub fn write(out: &mut [u8], id: u32, transfer: u8, signature: u64, payload: &[u8])
    requires { (transfer < 32) × ((length payload.now ≤ payload_max) × (frame_record * frame_count (length payload.now) ≤ length out.old)) }
    ensures { out.new ≡ splice out.old 0 (records_of id (sent signature transfer payload.now)) }
{
    if payload.len() <= FRAME_PAYLOAD {
        next(out, 0, id, payload, 128 + transfer);
        return;
    }
    let sum = checksum::crc16::transfer(signature, payload);
    first(out, id, sum, payload, 128 + transfer);
    others(out, id, transfer, payload);
}
