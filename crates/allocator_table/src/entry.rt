// One entry of the table (RULES 16.1). A unique ID is compared as the number of its bytes, in two halves.
ghost use Rattle.std.specs.Prelude.{◌≡◌, ◌+◌, ◌≤◌, ◌<◌, eqb, ltb, length};
ghost use Rattle.bits.specs.Little.{le};
ghost use Rattle.bits.specs.Part.{span};
ghost use Rattle.allocator_table.specs.Layout.{size, time_of, gathered_count, entry_count, unique_at, node_at};
ghost use Rattle.allocator_table.specs.Limits.{node_max, unique_id_max};
ghost use Rattle.allocator_table.specs.inside.Code.{number_of};

use super::layout::{ENTRIES_AT, ENTRY, ENTRY_COUNT_AT, GATHERED_COUNT_AT, TIME_AT};
use super::limits::UNIQUE_ID;

// Compared by hand: derived comparisons call generic functions of the library, which are not translated to C.
#[derive(Clone, Copy)]
pub struct UniqueId {
    pub low: u64,
    pub high: u64,
}

// Internal. The unique ID whose bytes start at `at`.
pub fn read(s: &[u8], at: usize) -> UniqueId
    requires { at + unique_id_max ≤ length s.now }
    ensures { number_of result ≡ le (span s.now at unique_id_max) }
{
    UniqueId {
        low: bits::le::get_at(s, at, 8),
        high: bits::le::get_at(s, at + 8, 8),
    }
}

// Internal. The unique ID a is below b.
pub fn is_less(a: UniqueId, b: UniqueId) -> bool
    ensures { result ≡ ltb (number_of a) (number_of b) }
{
    a.high < b.high || (a.high == b.high && a.low < b.low)
}

// Internal. The two are the same unique ID.
pub fn is_same(a: UniqueId, b: UniqueId) -> bool
    ensures { result ≡ eqb (number_of a) (number_of b) }
{
    a.high == b.high && a.low == b.low
}

// Internal. The time of the last message processed.
pub fn time(state: &[u8]) -> u64
    requires { size ≤ length state.now }
    ensures { result ≡ time_of state.now }
{
    bits::le::get_at(state, TIME_AT, 8)
}

// Internal. The number of gathered bytes.
pub fn gathered_count(state: &[u8]) -> usize
    requires { size ≤ length state.now }
    ensures { result ≡ gathered_count state.now }
{
    bits::le::get_at(state, GATHERED_COUNT_AT, 1) as usize
}

// Internal. The number of entries.
pub fn count(state: &[u8]) -> usize
    requires { size ≤ length state.now }
    ensures { result ≡ entry_count state.now }
{
    bits::le::get_at(state, ENTRY_COUNT_AT, 1) as usize
}

// Internal. The unique ID of entry i.
pub fn unique_id(state: &[u8], i: usize) -> UniqueId
    requires { (i < node_max) × (size ≤ length state.now) }
    ensures { number_of result ≡ unique_at state.now i }
{
    read(state, ENTRIES_AT + i * ENTRY)
}

// Internal. The node ID of entry i.
pub fn node(state: &[u8], i: usize) -> usize
    requires { (i < node_max) × (size ≤ length state.now) }
    ensures { result ≡ node_at state.now i }
{
    bits::le::get_at(state, ENTRIES_AT + i * ENTRY + UNIQUE_ID, 1) as usize
}
