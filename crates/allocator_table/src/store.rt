// Writing to a lent state (RULES 16.9).
ghost use Rattle.std.specs.Prelude.{true, ◌≡◌, ◌≤◌, ◌<◌, length};
ghost use Rattle.allocator_table.specs.Layout.{size, entry_count, sound_state, with_time, with_count, with_gathered, with_entry_at, with_entry};
ghost use Rattle.allocator_table.specs.Limits.{unique_id_max, node_max};

use super::layout::{ENTRIES_AT, ENTRY, ENTRY_COUNT_AT, GATHERED_AT, GATHERED_COUNT_AT, TIME_AT};
use super::limits::UNIQUE_ID;
use super::{entry, find};

// Internal. The time of a message that was processed.
pub fn time(state: &mut [u8], t: u64)
    requires { size ≤ length state.old }
    ensures { state.new ≡ with_time state.old t }
{
    bits::le::put_at(state, TIME_AT, 8, t);
}

// Internal. The number of gathered bytes.
pub fn gathered_count(state: &mut [u8], n: usize)
    requires { (size ≤ length state.old) × (n < 256) }
    ensures { state.new ≡ with_count state.old n }
{
    bits::le::put_at(state, GATHERED_COUNT_AT, 1, n as u64);
}

// Internal. The gathered bytes.
pub fn gathered(state: &mut [u8], g: &[u8])
    requires { (size ≤ length state.old) × (length g.now ≤ unique_id_max) }
    ensures { state.new ≡ with_gathered state.old g.now }
{
    gathered_count(state, g.len());
    bits::part::copy_at(state, GATHERED_AT, g);
}

// An entry more at place p of n: the unique ID u, 16 bytes, and its node ID.
fn entry_at(state: &mut [u8], p: usize, n: usize, u: &[u8], node: usize)
    requires size_in_bounds { (size ≤ length state.old) × ((p ≤ n) × (n < node_max)) }
    requires u_len { (length u.now ≡ unique_id_max) × (n ≡ entry_count state.old) }
    ensures { state.new ≡ with_entry_at state.old p u.now node }
{
    let at = ENTRIES_AT + p * ENTRY;
    moves::up(state, at, (n - p) * ENTRY, ENTRY);
    bits::part::copy_at(state, at, u);
    bits::le::put_at(state, at + UNIQUE_ID, 1, node as u64);
    bits::le::put_at(state, ENTRY_COUNT_AT, 1, n as u64 + 1);
}

// Internal. An entry more, where it belongs: the unique ID u, 16 bytes, and its node ID.
pub fn entry(state: &mut [u8], u: &[u8], node: usize)
    requires state_value { (sound_state state.old ≡ true) × (entry_count state.old < node_max) }
    requires u_len { length u.now ≡ unique_id_max }
    ensures { state.new ≡ with_entry state.old u.now node }
{
    let n = entry::count(state);
    let p = find::place_for(state, entry::read(u, 0));
    entry_at(state, p, n, u, node);
}
