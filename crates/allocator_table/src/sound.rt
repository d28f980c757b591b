// The faults of a lent state (RULES 16.10), which answer 20. Every call runs this first, so it is one walk over the table, from its end.
ghost use Rattle.std.specs.Prelude.{◌≡◌, suc, ◌-◌, ◌≤◌, ◌<◌, length};
ghost use Rattle.bits.specs.Tabulate.{tabulate};
ghost use Rattle.allocator_table.specs.Layout.{size, entry_at, sound_state};
ghost use Rattle.allocator_table.specs.Limits.{node_max};
ghost use Rattle.allocator_table.specs.Table.{fits_before, sound};
ghost use Rattle.allocator_table.specs.inside.Sound.{Seen};

use super::entry;
use super::layout::SIZE;
use super::limits::{NODES, UNIQUE_ID};

// Entry i of n fits before those behind it, whose node IDs are `seen`.
fn entry_fits(state: &[u8], i: usize, n: usize, seen: &[u8; 128]) -> bool
    requires i_lt_n { ((i < n) × (n ≤ node_max)) × (size ≤ length state.now) }
    requires seen { Seen seen.now (tabulate (entry_at state.now) (suc i) (n - suc i)) }
    ensures { result ≡ fits_before (entry_at state.now i) (tabulate (entry_at state.now) (suc i) (n - suc i)) }
{
    let node = entry::node(state, i);
    if node == 0 {
        return false;
    }
    if NODES < node {
        return false;
    }
    if seen[node] != 0 {
        return false;
    }
    let next = i + 1;
    if next < n {
        return entry::is_less(entry::unique_id(state, i), entry::unique_id(state, next));
    }
    true
}

// The first n entries fit, each before those behind it.
fn entries_sound(state: &[u8], n: usize) -> bool
    requires { (n ≤ node_max) × (size ≤ length state.now) }
    ensures { result ≡ sound (tabulate (entry_at state.now) 0 n) }
{
    let mut seen = [0u8; 128];
    for i in (0..n).rev() {
        if !entry_fits(state, i, n, &seen) {
            return false;
        }
        let node = entry::node(state, i);
        seen[node] = 1;
    }
    true
}

// Internal. The state has no fault.
pub fn is_sound(state: &[u8]) -> bool
    ensures { result ≡ sound_state state.now }
{
    if state.len() < SIZE {
        return false;
    }
    if UNIQUE_ID <= entry::gathered_count(state) {
        return false;
    }
    let n = entry::count(state);
    if NODES < n {
        return false;
    }
    entries_sound(state, n)
}
