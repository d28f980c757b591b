// Where no block is free, old sessions with bytes in hand are emptied (RULES 4.12).
ghost use Rattle.std.specs.Prelude.{◌≡◌, not, map, ◌<◌, set};
ghost use Rattle.rules.specs.Blocks.{free_block, relieved, cleared};
ghost use Rattle.rules.specs.Limits.{sessions_max};
ghost use Rattle.rules.specs.Tests.{is_none};
ghost use Rattle.sessions.specs.inside.Scan.{stale_at};
ghost use Rattle.state.specs.Layout.{place_at, places_of};
ghost use Rattle.state.specs.Place.{written};
ghost use Rattle.state.specs.inside.Ready.{Ready};

use super::{gathered, place, scan};
use rules::limits::{BLOCKS, SESSIONS};

// The session of place i is old at the time t, and has bytes in hand.
fn is_stale(state: &[u8], t: u64, i: usize) -> bool
    requires { Ready state.now × (i < sessions_max) }
    ensures { result ≡ stale_at state.now t i }
{
    if scan::is_old(state, t, i) {
        return 0 < place::count(state, i);
    }
    false
}

// Place i is left as after 11, if its session is such a one.
fn relieve_one(state: &mut [u8], t: u64, i: usize)
    requires { Ready state.old × (i < sessions_max) }
    ensures { state.new ≡ written state.old (set (places_of state.old) i (relieved t (place_at state.old i))) }
{
    if is_stale(state, t, i) {
        let k = place::key(state, i);
        let c = place::load(state, i).close();
        place::wait(state, i, k, c);
    }
}

// All places.
fn relieve(state: &mut [u8], t: u64)
    requires { Ready state.old }
    ensures { state.new ≡ written state.old (map (relieved t) (places_of state.old)) }
{
    for i in 0..SESSIONS {
        relieve_one(state, t, i);
    }
}

// Internal. Whether a block is free, old sessions emptied first where none is.
pub fn provide(state: &mut [u8], t: u64) -> bool
    requires { Ready state.old }
    ensures { (state.new ≡ written state.old (cleared t (places_of state.old))) × (result ≡ not (is_none (free_block (cleared t (places_of state.old))))) }
{
    if gathered::lowest(state) < BLOCKS as u32 {
        return true;
    }
    relieve(state, t);
    gathered::lowest(state) < BLOCKS as u32
}
