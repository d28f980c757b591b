// An Allocation message that came (RULES 21.3): rules E, C and D in this order.
ghost use Rattle.std.specs.Prelude.{◌&&◌, not, ◌≡◌, ◌≤◌, ◌<◌, eqb, length, Ok};
ghost use Rattle.allocatee.specs.Calls.{state, begins, is_own, skips, on_message};
ghost use Rattle.allocatee.specs.Layout.{size, unique_of};
ghost use Rattle.allocatee.specs.Limits.{unique_id_max};

use super::answer::Step;
use super::limits::UNIQUE_ID;
use super::{Heard, store, view};

// The bytes u begin the own unique ID.
fn matches(bytes: &[u8], u: &[u8]) -> bool
    requires { (size ≤ length bytes.now) × (length u.now ≤ unique_id_max) }
    ensures { result ≡ begins u.now (unique_of bytes.now) }
{
    bytes.starts_with(u)
}

// The message is from a named node, and for this one.
fn is_own(bytes: &[u8], source: u32, u: &[u8]) -> bool
    requires { (size ≤ length bytes.now) × (length u.now ≤ unique_id_max) }
    ensures { result ≡ is_own bytes.now source u.now }
{
    if source == 0 {
        return false;
    }
    matches(bytes, u)
}

// What is pending after a message with n bytes of a unique ID.
fn skipped(own: bool, n: usize) -> u8
    ensures { result ≡ skips own n }
{
    if own {
        if n < UNIQUE_ID {
            return n as u8 + 1;
        }
        return 0;
    }
    0
}

// A message: its node ID, and its unique ID.
pub fn message(bytes: &mut [u8], q: Heard, node: u64, u: &[u8]) -> Step
    requires { (size ≤ length bytes.old) × ((length u.now ≤ unique_id_max) × (node < 128)) }
    ensures { state (Ok result) bytes.new ≡ on_message bytes.old q node u.now }
{
    let own = is_own(bytes, q.source, u);
    if takes(own, u.len(), node) {
        store::node(bytes, node as u8);
        return Step::Has(node as u32);
    }
    store::timer(bytes, q.time, q.random);
    store::pending(bytes, skipped(own, u.len()));
    Step::Waits(view::wait(bytes, q.time))
}

// Rule E: a whole unique ID, and a node ID.
fn takes(own: bool, n: usize, node: u64) -> bool
    ensures { result ≡ (own && (eqb n unique_id_max && not (eqb node 0))) }
{
    if own {
        if n == UNIQUE_ID {
            return node != 0;
        }
        return false;
    }
    false
}
