// The subscriptions in a receiver's state (RULES 3.4, 3.6).
#![tactic(auto)]

ghost use Rattle.std.specs.Prelude.{◌≡◌, ◌≤◌, ◌<◌, length};
ghost use Rattle.rules.specs.Limits.{subscriptions_max};
ghost use Rattle.rules.specs.Setup.{all_fit, subscribed};
ghost use Rattle.state.specs.Layout.{size, setup_of};
ghost use Rattle.subscriptions.specs.inside.Subscription.{asked, key_fits, with_subscription};

use keys::MARKS;
use state::layout::{SIGNATURES_AT, SUBSCRIPTION_COUNT_AT, SUBSCRIPTION_KEYS_AT};

// Above the last key of a kind and a type in range: kind 1 has types below 256.
const KEYS_END: u32 = 65536 + 256;

// Internal. The signature that the lowest subscription of this kind and type gives.
pub fn find(state: &[u8], kind: u32, type_id: u32) -> Option<u64>
    requires { (size ≤ length state.now) × ((kind < 2) × (type_id < 65536)) }
    ensures { result ≡ asked (subscribed kind type_id (setup_of state.now).subscriptions) }
{
    let n = state[SUBSCRIPTION_COUNT_AT] as usize;
    let j = keys::find(state, SUBSCRIPTION_KEYS_AT, n, kind * 65536 + type_id);
    if j < n {
        return Some(bits::le::get_u64(state, SIGNATURES_AT + j * 8));
    }
    None
}

// The key k is in range, and none of the first j subscriptions has it; `first`: it is known that none has it.
fn key_fits(state: &[u8], k: u32, j: usize, first: bool) -> bool
    requires { (size ≤ length state.now) × (j < 256) }
    ensures { result ≡ key_fits state.now k j first }
{
    if KEYS_END <= k {
        return false;
    }
    if first {
        return true;
    }
    keys::find(state, SUBSCRIPTION_KEYS_AT, j, k) == j
}

// Internal. Every subscription has a kind and a type in range, and none is there twice. Only a key whose mark is set is looked for among those
// before it.
pub fn all_fit(state: &[u8]) -> bool
    requires { size ≤ length state.now }
    ensures { result ≡ all_fit (setup_of state.now).subscriptions }
{
    let n = state[SUBSCRIPTION_COUNT_AT] as usize;
    let mut marks = [0u8; MARKS];
    for j in 0..n {
        let k = bits::le::get_u32(state, SUBSCRIPTION_KEYS_AT + j * 4);
        let first = keys::mark(&mut marks, k);
        if !key_fits(state, k, j, first) {
            return false;
        }
    }
    true
}

// Internal. Subscription j: the key of its kind and type, and its signature.
pub fn put(state: &mut [u8], j: usize, k: u64, signature: u64)
    requires { (size ≤ length state.old) × (j < subscriptions_max) }
    ensures { state.new ≡ with_subscription state.old j k signature }
{
    bits::le::put_at(state, SIGNATURES_AT + j * 8, 8, signature);
    bits::le::put_at(state, SUBSCRIPTION_KEYS_AT + j * 4, 4, k);
}
