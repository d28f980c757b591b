// What the table has (RULES 16.7).
ghost use Rattle.std.specs.Prelude.{true, ◌≡◌};
ghost use Rattle.allocator_table.specs.Layout.{table_of, sound_state};
ghost use Rattle.allocator_table.specs.Table.{holds, node_of, place_for};
ghost use Rattle.allocator_table.specs.inside.Code.{number_of, optional};

use super::entry;
use super::entry::UniqueId;

// Internal. The node ID of a unique ID.
pub fn node_of(state: &[u8], u: UniqueId) -> Option<usize>
    requires { sound_state state.now ≡ true }
    ensures { result ≡ optional (node_of (number_of u) (table_of state.now)) }
{
    let n = entry::count(state);
    for i in 0..n {
        if entry::is_same(entry::unique_id(state, i), u) {
            return Some(entry::node(state, i));
        }
    }
    None
}

// Internal. The node ID is that of an entry.
pub fn is_held(state: &[u8], node: usize) -> bool
    requires { sound_state state.now ≡ true }
    ensures { result ≡ holds node (table_of state.now) }
{
    let n = entry::count(state);
    for i in 0..n {
        if entry::node(state, i) == node {
            return true;
        }
    }
    false
}

// Internal. The place where a unique ID belongs.
pub fn place_for(state: &[u8], u: UniqueId) -> usize
    requires { sound_state state.now ≡ true }
    ensures { result ≡ place_for (number_of u) (table_of state.now) }
{
    let n = entry::count(state);
    for i in 0..n {
        if !entry::is_less(entry::unique_id(state, i), u) {
            return i;
        }
    }
    n
}
