// A session by value but for its bytes, with its methods, and the tests and answers of one frame of its stream (RULES 4.3 to 4.8).
#![tactic(auto)]

ghost use Rattle.std.specs.Prelude.{◌≡◌, true, false, ◌&&◌, [], ◌+◌, ◌-◌, ◌≤◌, ◌<◌, ltb, eqb, length, take};
ghost use Rattle.std.proofs.Math.Option.{some};
ghost use Rattle.bits.specs.Part.{span};
ghost use Rattle.rules.specs.Limits.{payload_max, gathered_max};
ghost use Rattle.rules.specs.Session as rules;
ghost use Rattle.rules.specs.Session.{distance, next, sum_ok};
ghost use Rattle.rules.specs.Tests.{pick, is_none};
ghost use Rattle.session.specs.inside.Session.{parsed_of, idle, taken, bare};
ghost use Rattle.session.specs.inside.Answer.{why, Passes, HandsOut, Closes};

use answers::{Answer, Reason, Transfer};
use frame::head::Head;
use rules::limits::{OLD_AGE, SWITCH_DELAY};

// A session by value: all but the bytes in hand, of which it has the number.
#[derive(Clone, Copy)]
pub struct Session {
    pub expected: u8,
    pub toggle: bool,
    pub time: u64,
    pub follows: u8,
    pub len: usize,
}

// What the rules read of a frame, but for its payload: its head, the signature of its type, when it came and by which interface.
#[derive(Clone, Copy)]
pub struct Incoming {
    pub head: Head,
    pub signature: u64,
    pub time: u64,
    pub interface: u8,
}

impl Session {
    // Internal. A session that a start with this transfer ID begins, by this interface.
    pub fn fresh(transfer: u8, time: u64, interface: u8) -> Self
        ensures { result ≡ idle transfer time interface }
    {
        Session {
            expected: transfer,
            toggle: false,
            time: time,
            follows: interface,
            len: 0,
        }
    }

    // Internal. Nothing in hand, toggle 0, expecting this transfer ID, following this interface. The time stays.
    pub fn restart(mut self, transfer: u8, interface: u8) -> Self
        ensures { result ≡ idle transfer self.time interface }
    {
        self.expected = transfer;
        self.toggle = false;
        self.follows = interface;
        self.len = 0;
        self
    }

    // Internal. A frame with n bytes is taken: they come after those in hand, a start sets the time, the toggle turns.
    pub fn take(mut self, start: bool, time: u64, n: usize) -> Self
        requires { self.len + n ≤ gathered_max }
        ensures { result ≡ taken self start time n }
    {
        self.len = self.len + n;
        if start {
            self.time = time;
        }
        self.toggle = !self.toggle;
        self
    }

    // Internal. The transfer is over: nothing in hand, toggle 0, the expected transfer ID raised by one.
    pub fn close(self) -> Self
        requires { self.expected < 32 }
        ensures { result ≡ idle (next self.expected) self.time self.follows }
    {
        let next = (self.expected + 1) % 32;
        let follows = self.follows;
        self.restart(next, follows)
    }
}

// Internal. The transfer ID that a session restarted by this frame expects: its own, or the next one where it is no start.
pub fn expects(f: Incoming) -> u8
    requires { f.head.transfer < 32 }
    ensures { result ≡ pick f.head.start f.head.transfer (next f.head.transfer) }
{
    if f.head.start {
        return f.head.transfer;
    }
    (f.head.transfer + 1) % 32
}

// The age is above a limit. An earlier time counts as age 0.
fn age_above(limit: u64, since: u64, time: u64) -> bool
    ensures { result ≡ ltb limit (time - since) }
{
    if since < time {
        return limit < time - since;
    }
    false
}

// The frame comes by the followed interface, and its transfer ID is neither the expected one nor the one before.
fn is_behind(c: Session, f: Incoming) -> bool
    requires { (c.expected < 32) × (f.head.transfer < 32) }
    ensures { result ≡ (eqb f.interface c.follows && ltb 1 (distance f.head.transfer c.expected)) }
{
    if f.interface != c.follows {
        return false;
    }
    1 < (c.expected + 32 - f.head.transfer) % 32
}

// The session restarts at this start.
fn begins(c: Session, f: Incoming) -> bool
    requires { (c.expected < 32) × (f.head.transfer < 32) }
    ensures { result ≡ rules.begins (bare c) (parsed_of f []) }
{
    if is_behind(c, f) {
        return true;
    }
    if age_above(SWITCH_DELAY, c.time, f.time) {
        return (f.head.transfer + 32 - c.expected) % 32 < 16;
    }
    false
}

// Internal. The session restarts: it is old, or the frame is a start of another transfer.
pub fn restarts(c: Session, f: Incoming) -> bool
    requires { (c.expected < 32) × (f.head.transfer < 32) }
    ensures { result ≡ rules.restarts (bare c) (parsed_of f []) }
{
    if age_above(OLD_AGE, c.time, f.time) {
        return true;
    }
    if f.head.start {
        return begins(c, f);
    }
    false
}

// Internal. The frame is the one that the session waits for.
pub fn awaited(c: Session, f: Incoming) -> bool
    ensures { result ≡ is_none (rules.over (bare c) (parsed_of f [])) }
{
    if f.interface == c.follows {
        if f.head.transfer == c.expected {
            if f.head.toggle == c.toggle {
                return f.head.start == (c.len == 0);
            }
        }
    }
    false
}

// r if the test holds, else the first of those after it.
fn first(holds: bool, r: Reason, after: Reason) -> Reason
    ensures { result ≡ pick holds r after }
{
    if holds {
        return r;
    }
    after
}

// Internal. Why a frame that is not awaited is passed over: the first that holds of 34, 32, 33 for a start, of 34, 30, 32, 31 for another frame. The
// choices are made from the last to the first.
pub fn reason(c: Session, f: Incoming) -> Reason
    requires { Passes c f }
    ensures { why (rules.over (bare c) (parsed_of f [])) ≡ some result }
{
    let elsewhere = f.interface != c.follows;
    let idle = c.len == 0;
    let other = f.head.transfer != c.expected;
    if f.head.start {
        let heard = first(other, Reason::WrongTransfer, Reason::RepeatedStart);
        return first(elsewhere, Reason::OtherInterface, heard);
    }
    let within = first(other, Reason::WrongTransfer, Reason::WrongToggle);
    let heard = first(idle, Reason::NoTransfer, within);
    first(elsewhere, Reason::OtherInterface, heard)
}

// The first two bytes, low byte first, are the transfer checksum of the others.
fn sum_ok(signature: u64, s: &[u8], len: usize) -> bool
    requires { len ≤ length s.now }
    ensures { result ≡ sum_ok signature (take len s.now) }
{
    if len < 2 {
        return false;
    }
    let sum = checksum::crc16::transfer_span(signature, s, 2, len - 2);
    bits::le::wide(s[0]) + 256 * bits::le::wide(s[1]) == sum as u64
}

// Internal. The bytes of s from `from` up to `len`, handed out.
pub fn hand_out(s: &[u8], from: usize, len: usize, f: Incoming, out: &mut [u8]) -> Answer
    requires { (from ≤ len) × ((len ≤ length s.now) × (len - from ≤ length out.old)) }
    ensures { HandsOut f (span s.now from (len - from)) result out.old out.new }
{
    let n = len - from;
    bits::part::copy_span(out, 0, s, from, n);
    Answer::Handed(Transfer {
        len: n,
        transfer_type: f.head.transfer_type,
        type_id: f.head.type_id,
        source: f.head.source,
        destination: f.head.destination,
        priority: f.head.priority,
        transfer: f.head.transfer,
    })
}

// Internal. An end: start and end together hand out the bytes, else the checksum in front decides.
pub fn finish(s: &[u8], len: usize, f: Incoming, out: &mut [u8]) -> Answer
    requires { (len ≤ length s.now) × ((len ≤ gathered_max) × ((payload_max ≤ length out.old) × ((f.head.start ≡ true) → len ≤ payload_max))) }
    ensures { Closes f (take len s.now) result out.old out.new }
{
    if f.head.start {
        return hand_out(s, 0, len, f, out);
    }
    if sum_ok(f.signature, s, len) {
        return hand_out(s, 2, len, f, out);
    }
    Answer::BadChecksum
}
