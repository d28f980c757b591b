// The stages of a unique ID, the follow-up timeout, and the preferred node ID (RULES 16.4, 16.5, 16.7).
ghost use Rattle.std.specs.Prelude.{◌≡◌, ◌≤◌, length};
ghost use Rattle.allocator.specs.Stage.{stage_of, expected_at, kept_at};
ghost use Rattle.allocator.specs.Stage as specs;
ghost use Rattle.allocator_table.specs.Layout.{size};
ghost use Rattle.allocator_table.specs.Limits.{unique_id_max, node_max};

use allocator_table::entry;
use allocator_table::limits::{FOLLOWUP_TIMEOUT, NODES, STAGE, UNIQUE_ID};

// The stage of a message with n bytes of a unique ID, or 0: a number, as `stage_of` says.
fn of(first: u64, n: usize) -> u32
    ensures { result ≡ stage_of first n }
{
    let sized = (n == STAGE) | ((n == UNIQUE_ID - STAGE - STAGE) | (n == UNIQUE_ID));
    if !sized {
        return 0;
    }
    if first == 1 {
        return 1;
    }
    if n == STAGE {
        return 2;
    }
    if n < STAGE {
        return 3;
    }
    0
}

// The stage that is expected after n gathered bytes, or 0: a number, as `expected_at` says.
fn expected(n: usize) -> u32
    ensures { result ≡ expected_at n }
{
    if n == 0 {
        return 1;
    }
    if STAGE + STAGE <= n {
        return 3;
    }
    if STAGE <= n {
        return 2;
    }
    0
}

// A message with k bytes of a unique ID is the one expected after n gathered bytes.
pub fn accepts(first: u64, k: usize, n: usize) -> bool
    requires { n ≤ unique_id_max }
    ensures { result ≡ specs.accepts first k n }
{
    let stage = of(first, k);
    if stage == 0 {
        return false;
    }
    if stage != expected(n) {
        return false;
    }
    k <= UNIQUE_ID - n
}

// The number of bytes that are still gathered at the time t.
pub fn kept(state: &[u8], t: u64) -> usize
    requires { size ≤ length state.now }
    ensures { result ≡ kept_at state.now t }
{
    let since = entry::time(state);
    if t <= since {
        return entry::gathered_count(state);
    }
    if FOLLOWUP_TIMEOUT < t - since {
        return 0;
    }
    entry::gathered_count(state)
}

// The node ID that is preferred: 0, 126 and 127 count as 125.
pub fn preferred(p: u64) -> usize
    ensures { (result ≡ specs.preferred p) × (result ≤ node_max) }
{
    if p == 0 {
        return NODES;
    }
    if (NODES as u64) < p {
        return NODES;
    }
    p as usize
}
