// One stream of a capture that is judged (RULES 19.8): what is kept of it, and one frame more.
#![tactic(auto)]

ghost use Rattle.std.specs.Prelude.{◌≡◌, not, ◌&&◌, [], ◌+◌, ◌<◌, leb};
ghost use Rattle.std.proofs.Math.Option.{none, some};
ghost use Rattle.judge_rules.specs.inside.Brief.{rests};
ghost use Rattle.judge_rules.specs.Good.{may_follow};
ghost use Rattle.judge_rules.specs.Verdict as rules;
ghost use Rattle.rules.specs.Limits.{unused_age};
ghost use Rattle.judge_stream.specs.inside.Kept.{before_of, brief_in, stream_of, seen_of, resting, Passed, InRange, Opens, Grows, Follows};

use frame::head::Head;
use rules::limits::{FRAME_PAYLOAD, GATHERED, UNUSED_AGE};

// What is kept of a stream: the ID, the start's time and the transfer ID of its last transfer. Of one that is not over yet, the next toggle, how many
// bytes there are so far, the first two as a number and the checksum of the others; the count is 0 between transfers.
#[derive(Clone, Copy)]
pub struct Kept {
    pub id: u32,
    pub since: u64,
    pub transfer: u8,
    pub toggle: bool,
    pub count: usize,
    pub sum: u16,
    pub register: u16,
}

// What is read of a frame, but for its payload.
#[derive(Clone, Copy)]
pub struct Seen {
    pub id: u32,
    pub time: u64,
    pub head: Head,
}

// The number of the condition that a frame fails (RULES 19.7).
#[derive(Clone, Copy, Debug, PartialEq, Eq)]
pub struct Condition(pub u8);

// So long after the last start that an ID may be 0. An earlier time is not after.
fn is_gap(since: u64, time: u64) -> bool
    ensures { result ≡ leb (since + unused_age) time }
{
    if since < time {
        return UNUSED_AGE <= time - since;
    }
    false
}

// The frame's transfer ID may follow that of the last transfer.
fn may_follow(k: Kept, v: Seen) -> bool
    requires { k.transfer < 32 }
    ensures { result ≡ may_follow (stream_of v) (some (before_of k)) v.head.transfer v.time }
{
    if v.head.transfer_type == 2 {
        return true;
    }
    if v.head.transfer == (k.transfer + 1) % 32 {
        return true;
    }
    if v.head.transfer == 0 {
        return is_gap(k.since, v.time);
    }
    false
}

// The frame has no start, and its ID, transfer ID and toggle continue the transfer.
fn continues(k: Kept, v: Seen) -> bool
    ensures { result ≡ (not v.head.start && rules.continues k.id (before_of k) k.toggle (seen_of v [])) }
{
    if v.head.start {
        return false;
    }
    if k.id != v.id {
        return false;
    }
    if k.transfer != v.head.transfer {
        return false;
    }
    k.toggle == v.head.toggle
}

// Between transfers.
fn rest(id: u32, since: u64, transfer: u8) -> Kept
    ensures { result ≡ resting id since transfer }
{
    Kept {
        id,
        since,
        transfer,
        toggle: false,
        count: 0,
        sum: 0,
        register: 0,
    }
}

// A start that may follow.
fn open(signature: u64, v: Seen, p: &[u8]) -> Kept
    requires { Passed v p.now }
    ensures { Opens signature v p.now result }
{
    if v.head.end {
        return rest(v.id, v.time, v.head.transfer);
    }
    Kept {
        id: v.id,
        since: v.time,
        transfer: v.head.transfer,
        toggle: true,
        count: p.len(),
        sum: p[0] as u16 + 256 * p[1] as u16,
        register: checksum::crc16::transfer(signature, &p[2..p.len()]),
    }
}

// The transfer with so many bytes and this register after the frame, which may be its last.
fn grow(k: Kept, count: usize, register: u16, last: bool) -> Result<Kept, Condition>
    requires { (k.transfer < 32) × (0 < count) }
    ensures { Grows k count register last result }
{
    if GATHERED < count {
        return Err(Condition(11));
    }
    if last {
        if k.sum == register {
            if count <= FRAME_PAYLOAD + 2 {
                return Err(Condition(24));
            }
            return Ok(rest(k.id, k.since, k.transfer));
        }
        return Err(Condition(12));
    }
    Ok(Kept {
        id: k.id,
        since: k.since,
        transfer: k.transfer,
        toggle: !k.toggle,
        count,
        sum: k.sum,
        register,
    })
}

// Internal. The first frame of a stream, with this payload.
pub fn begin(signature: u64, v: Seen, p: &[u8]) -> Result<Kept, Condition>
    requires { Passed v p.now }
    ensures { Follows signature (rests none) v p.now result }
{
    if v.head.start {
        return Ok(open(signature, v, p));
    }
    Err(Condition(24))
}

// Internal. One frame more of a stream, with this payload.
pub fn follow(signature: u64, k: Kept, v: Seen, p: &[u8]) -> Result<Kept, Condition>
    requires { InRange k × Passed v p.now }
    ensures { Follows signature (brief_in k) v p.now result }
{
    if k.count == 0 {
        if may_follow(k, v) {
            return begin(signature, v, p);
        }
        return Err(Condition(24));
    }
    if continues(k, v) {
        let count = k.count + p.len();
        let register = checksum::crc16::over(k.register, p);
        return grow(k, count, register, v.head.end);
    }
    Err(Condition(24))
}
