// The search for a free node ID (RULES 16.7). A new entry is rare, so each candidate is looked up by itself.
ghost use Rattle.std.specs.Prelude.{true, ◌≡◌, suc, ◌-◌, ◌≤◌, ◌<◌, IfSome};
ghost use Rattle.allocator_table.specs.Layout.{table_of, sound_state};
ghost use Rattle.allocator_table.specs.Limits.{node_max};
ghost use Rattle.allocator_table.specs.Table.{is_marked, lowest_from, highest_below};
ghost use Rattle.allocator_table.specs.Table as table;
ghost use Rattle.allocator_table.specs.inside.Code.{optional};

use super::find;
use super::limits::NODES;

// What is not free besides the entries' node IDs: the own one, and those marked as static nodes', bit n % 64 of `low` or `high`.
#[derive(Clone, Copy)]
pub struct Reserved {
    pub own: u32,
    pub low: u64,
    pub high: u64,
}

// Node n is marked.
fn is_marked(r: Reserved, n: usize) -> bool
    requires { n < 128 }
    ensures { result ≡ is_marked r n }
{
    if n < 64 {
        return (r.low >> n) % 2 == 1;
    }
    (r.high >> (n - 64)) % 2 == 1
}

// Node n can be given.
fn is_free(state: &[u8], r: Reserved, n: usize) -> bool
    requires { (sound_state state.now ≡ true) × (n ≤ node_max) }
    ensures { result ≡ table.is_free r (table_of state.now) n }
{
    if n == 0 {
        return false;
    }
    if n as u32 == r.own {
        return false;
    }
    if is_marked(r, n) {
        return false;
    }
    !find::is_held(state, n)
}

// The lowest free node ID from p up to 125.
fn upwards(state: &[u8], r: Reserved, p: usize) -> Option<usize>
    requires { (sound_state state.now ≡ true) × (p ≤ node_max) }
    ensures { (result ≡ optional (lowest_from (table.is_free r (table_of state.now)) p (suc node_max - p))) × IfSome result (λ n. n ≤ node_max) }
{
    for n in p..NODES + 1 {
        if is_free(state, r, n) {
            return Some(n);
        }
    }
    None
}

// The highest free node ID below p.
fn downwards(state: &[u8], r: Reserved, p: usize) -> Option<usize>
    requires { (sound_state state.now ≡ true) × (p ≤ node_max) }
    ensures { (result ≡ optional (highest_below (table.is_free r (table_of state.now)) p)) × IfSome result (λ n. n ≤ node_max) }
{
    for n in (0..p).rev() {
        if is_free(state, r, n) {
            return Some(n);
        }
    }
    None
}

// Internal. The node ID for a new unique ID that prefers p, if one is free.
#[tactic(auto, using(crate::proofs::Search::given_up, crate::proofs::Search::given_down))]
pub fn given(state: &[u8], r: Reserved, p: usize) -> Option<usize>
    requires { (sound_state state.now ≡ true) × (p ≤ node_max) }
    ensures { (result ≡ optional (table.given (table.is_free r (table_of state.now)) p)) × IfSome result (λ n. n ≤ node_max) }
{
    // A match, not `or_else`: C, which reaches this, has no closures.
    match upwards(state, r, p) {
        Some(n) => Some(n),
        None => downwards(state, r, p),
    }
}
