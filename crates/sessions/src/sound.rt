// The faults of a lent state (RULES 5.4), which answer 20. Every call of the receiver runs this first.
ghost use Rattle.std.specs.Prelude.{true, ◌&&◌, ◌≡◌, ◌+◌, ◌*◌, ◌%◌, ◌≤◌, ◌<◌, ltb, leb, length};
ghost use Rattle.std.proofs.Math.Option.{none};
ghost use Rattle.bits.specs.Part.{span};
ghost use Rattle.bits.specs.Tabulate.{every};
ghost use Rattle.keys.specs.inside.Keys.{distinct};
ghost use Rattle.rules.specs.Blocks.{blocks_in};
ghost use Rattle.rules.specs.Limits.{sessions_max, gathered_max, blocks_each};
ghost use Rattle.rules.specs.Sound.{stream_fits};
ghost use Rattle.rules.specs.Tests.{pick};
ghost use Rattle.sessions.specs.inside.Sound.{control_fits, keys_of, empty_or_fits, claimed, told, shares};
ghost use Rattle.state.specs.Layout.{size, key_at, blocks_of, place_at, block_lists_at};
ghost use Rattle.frame.specs.Key.{stream_of_key};
ghost use Rattle.state.specs.Sound.{sound_state};

use super::gathered;
use blocks::set;
use blocks::set::ALL;
use keys::MARKS;
use rules::limits::{BLOCKS_EACH, GATHERED, INTERFACES, SESSIONS, SUBSCRIPTIONS};
use state::layout::{
    BLOCK_LISTS_AT, CONTROLS_AT, OWN_AT, SIZE, STREAM_KEYS_AT, SUBSCRIPTION_COUNT_AT,
};

// Above the last flags in range with any expected transfer ID: the toggle and twice the interface, 256 times.
const FLAGS_END: u32 = 512 * INTERFACES as u32;

// The stream of a key is in range.
fn stream_fits(k: u32) -> bool
    ensures { result ≡ stream_fits (stream_of_key k) }
{
    if k / 128 % 128 == 0 {
        return false;
    }
    if k < 0x40000000 {
        return k % 128 == 0;
    }
    if k < 0xC0000000 {
        if k / 16384 % 65536 < 256 {
            return 0 < k % 128;
        }
    }
    false
}

// The control fields of a place with nothing in hand are in range. x: its expected transfer ID and 256 times its flags.
fn idle_fits(x: u32) -> bool
    ensures { result ≡ (ltb (x % 512) 32 && ltb x 1536) }
{
    if x % 512 < 32 {
        return x < FLAGS_END;
    }
    false
}

// The same with n bytes in hand, where the toggle may be 0 or 1.
fn busy_fits(n: usize, x: u32) -> bool
    ensures { result ≡ (leb n gathered_max && (ltb (x % 256) 32 && ltb x 1536)) }
{
    if GATHERED < n {
        return false;
    }
    if x % 256 < 32 {
        return x < FLAGS_END;
    }
    false
}

// The blocks seen, which are free or in a session, and the first n of place i. None, a fault, where one of them is no block, or there before.
fn claim(state: &[u8], i: usize, n: usize, seen: u64) -> Option<u64>
    requires { ((i < sessions_max) × (size ≤ length state.now)) × (n ≤ blocks_each) }
    ensures { result ≡ told (claimed seen (span state.now (block_lists_at + i * blocks_each) n)) }
{
    let at = BLOCK_LISTS_AT + i * BLOCKS_EACH;
    let mut all = seen;
    for b in &state[at..at + n] {
        let b = *b as u32;
        if !gathered::is_new(all, b) {
            return None;
        }
        all = set::include(all, b);
    }
    Some(all)
}

// These blocks and those of the session in place i; a fault too where its control fields are not in range. One with nothing in hand is done first.
fn claim_session(state: &[u8], i: usize, seen: u64) -> Option<u64>
    requires { (i < sessions_max) × (size ≤ length state.now) }
    ensures { result ≡ told (pick (control_fits state.now i) (claimed seen (blocks_of state.now i)) none) }
{
    let at = CONTROLS_AT + i * 4;
    let n = bits::le::get_u16(state, at) as usize;
    let x = bits::le::get_u16(state, at + 2);
    if n == 0 {
        if idle_fits(x) {
            return Some(seen);
        }
        return None;
    }
    if busy_fits(n, x) {
        return claim(state, i, gathered::needed(n), seen);
    }
    None
}

// These blocks and those of place i, whose key is k; a fault too where the place is not empty and its stream or its control fields are not in range.
fn claim_place(state: &[u8], i: usize, k: u32, seen: u64) -> Option<u64>
    requires { ((i < sessions_max) × (size ≤ length state.now)) × (k ≡ key_at state.now i) }
    ensures { result ≡ told (pick (empty_or_fits state.now i) (claimed seen (blocks_in (place_at state.now i))) none) }
{
    if k == 0 {
        return Some(seen);
    }
    if stream_fits(k) {
        return claim_session(state, i, seen);
    }
    None
}

// Place by place, up to the last session: each fits, no key is there twice, and every block is free or in one session. One walk for all, since it
// runs at every call.
fn places_sound(state: &[u8], table: &[u32]) -> bool
    requires { (size ≤ length state.now) × (table.now ≡ keys_of state.now) }
    ensures { result ≡ ((every (empty_or_fits state.now) 0 sessions_max && distinct table.now) && shares state.now) }
{
    let mut marks = [0u8; MARKS];
    let mut left = table.len() as u32 - keys::count(table, 0);
    let mut seen = gathered::free(state);
    let mut i = 0;
    // A while: it ends after the last session, wherever that is.
    while 0 < left {
        let k = table[i];
        let first = keys::mark(&mut marks, k);
        let Some(all) = claim_place(state, i, k, seen) else {
            return false;
        };
        if !keys::is_alone(table, k, first) {
            return false;
        }
        seen = all;
        left -= (k != 0) as u32;
        i += 1;
    }
    seen == ALL
}

// Internal. The state has no fault (RULES 5.4).
pub fn is_sound(state: &[u8]) -> bool
    ensures { result ≡ sound_state state.now }
{
    if state.len() < SIZE {
        return false;
    }
    if 127 < state[OWN_AT] {
        return false;
    }
    if SUBSCRIPTIONS < state[SUBSCRIPTION_COUNT_AT] as usize {
        return false;
    }
    if subscriptions::all_fit(state) {
        let mut table = [0u32; SESSIONS];
        keys::load(&mut table, state, STREAM_KEYS_AT);
        return places_sound(state, &table);
    }
    false
}
