// What an allocatee's state says (RULES 21.1, 21.2).
ghost use Rattle.std.specs.Prelude.{◌≡◌, ◌-◌, ◌≤◌, ◌<◌, length};
ghost use Rattle.allocatee.specs.Layout.{size, preferred_of, node_of, pending_of, since_of, period_of, delay_of, follow_up_due, request_due, wait_of};

use super::layout::{DELAY_AT, NODE_AT, PENDING_AT, PERIOD_AT, PREFERRED_AT, SINCE_AT};
use super::limits::{PERIOD, SPREAD};

// The node ID that was taken, or 0, as the state has it.
pub fn node(bytes: &[u8]) -> u32
    requires { size ≤ length bytes.now }
    ensures { (result ≡ node_of bytes.now) × (result < 256) }
{
    bytes[NODE_AT] as u32
}

pub fn preferred(bytes: &[u8]) -> u32
    requires { size ≤ length bytes.now }
    ensures { (result ≡ preferred_of bytes.now) × (result < 256) }
{
    bytes[PREFERRED_AT] as u32
}

// One more than the number of bytes that a follow-up skips; 0 if none is pending, as the state has it.
pub fn pending(bytes: &[u8]) -> usize
    requires { size ≤ length bytes.now }
    ensures { (result ≡ pending_of bytes.now) × (result < 256) }
{
    bytes[PENDING_AT] as usize
}

// The age of the request timer, which is that of a pending follow-up too.
fn age(bytes: &[u8], t: u64) -> u64
    requires { size ≤ length bytes.now }
    ensures { result ≡ t - since_of bytes.now }
{
    let since = bits::le::get_u64(bytes, SINCE_AT);
    if t <= since {
        return 0;
    }
    t - since
}

fn period(bytes: &[u8]) -> u64
    requires { size ≤ length bytes.now }
    ensures { result ≡ period_of bytes.now }
{
    PERIOD + (bits::le::get_u32(bytes, PERIOD_AT) % SPREAD) as u64
}

fn delay(bytes: &[u8]) -> u64
    requires { size ≤ length bytes.now }
    ensures { result ≡ delay_of bytes.now }
{
    (bits::le::get_u32(bytes, DELAY_AT) % SPREAD) as u64
}

pub fn follow_up_due(bytes: &[u8], t: u64) -> bool
    requires { size ≤ length bytes.now }
    ensures { result ≡ follow_up_due bytes.now t }
{
    if pending(bytes) == 0 {
        return false;
    }
    delay(bytes) <= age(bytes, t)
}

pub fn request_due(bytes: &[u8], t: u64) -> bool
    requires { size ≤ length bytes.now }
    ensures { result ≡ request_due bytes.now t }
{
    period(bytes) <= age(bytes, t)
}

// a less b, or 0.
fn less(a: u64, b: u64) -> u64
    ensures { result ≡ a - b }
{
    if a <= b {
        return 0;
    }
    a - b
}

// The microseconds until something is due.
pub fn wait(bytes: &[u8], t: u64) -> u64
    requires { size ≤ length bytes.now }
    ensures { result ≡ wait_of bytes.now t }
{
    if pending(bytes) == 0 {
        return less(period(bytes), age(bytes, t));
    }
    less(delay(bytes), age(bytes, t))
}
