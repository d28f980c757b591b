// The frame checks 2, 3, 19 and 4 to 6 (RULES 4.1): 2, 3 and 19 before a frame is read, 4 to 6 on its head.
ghost use Rattle.std.specs.Prelude.{◌≡◌};
ghost use Rattle.frame.specs.inside.Head.{stream_of, head_tests_of};
ghost use Rattle.rules.specs.Check as rules;
ghost use Rattle.rules.specs.Check.{or_zero, first, read_tests};
ghost use Rattle.rules.specs.Frame.{unnamed};
ghost use Rattle.rules.specs.Setup.{kind_of};

use super::head::Head;
use rules::limits::{FRAME_DATA, INTERFACES};

// Internal. A message without a named source.
pub fn is_anonymous(h: Head) -> bool
    ensures { result ≡ unnamed (stream_of h) }
{
    if h.transfer_type == 0 {
        return h.source == 0;
    }
    false
}

// Internal. The kind of subscription that a frame asks for.
pub fn kind(h: Head) -> u32
    ensures { result ≡ kind_of (stream_of h) }
{
    if h.transfer_type == 0 {
        return 0;
    }
    1
}

// A service with source or destination 0.
fn unnamed_service(h: Head) -> bool
    ensures { result ≡ rules.unnamed_service (stream_of h) }
{
    if h.transfer_type == 0 {
        return false;
    }
    if h.source == 0 {
        return true;
    }
    h.destination == 0
}

// A service for another node.
fn for_another_node(h: Head, own: u8) -> bool
    ensures { result ≡ rules.for_another own (stream_of h) }
{
    if h.transfer_type == 0 {
        return false;
    }
    h.destination != own
}

// A tail byte that no sender makes, on a frame of n bytes.
fn bad_tail(h: Head, anonymous: bool, n: usize) -> bool
    ensures { result ≡ rules.bad_tail anonymous h.start h.end h.toggle n }
{
    if h.end {
        if h.start {
            return h.toggle;
        }
        if anonymous {
            return true;
        }
        return n == 1;
    }
    if anonymous {
        return true;
    }
    if n < FRAME_DATA {
        return true;
    }
    if h.start {
        return h.toggle;
    }
    false
}

// Internal. 2 or 3 for a frame of n data bytes that cannot be read, 19 for one by no interface of ours, or 0.
pub fn unreadable(id: u32, n: usize, interface: u32) -> u8
    ensures { result ≡ or_zero (first (read_tests id n interface)) }
{
    if 0x20000000 <= id {
        return 2;
    }
    if n == 0 {
        return 3;
    }
    if FRAME_DATA < n {
        return 3;
    }
    if INTERFACES as u32 <= interface {
        return 19;
    }
    0
}

// Internal. The number of the first check of 4 to 6 that refuses a frame of n data bytes, or 0.
pub fn refusal(h: Head, n: usize, own: u8) -> u8
    ensures { result ≡ or_zero (first (head_tests_of own h n)) }
{
    if unnamed_service(h) {
        return 4;
    }
    if bad_tail(h, is_anonymous(h), n) {
        return 5;
    }
    if for_another_node(h, own) {
        return 6;
    }
    0
}
