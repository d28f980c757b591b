// The lowest place that holds a stream, is empty, or is old (RULES 4.3, 4.4).
ghost use Rattle.std.specs.Prelude.{◌≡◌, ◌≤◌, ◌<◌, length};
ghost use Rattle.keys.specs.inside.Keys.{lowest};
ghost use Rattle.rules.specs.Limits.{sessions_max};
ghost use Rattle.sessions.specs.inside.Scan.{old_at, fits_at};
ghost use Rattle.state.specs.Layout.{size};

use super::place;
use rules::limits::{OLD_AGE, SESSIONS};
use state::layout::STREAM_KEYS_AT;

// What is looked for: a place with this key (0: an empty place), or a session that is old at this time.
#[derive(Drop)]
pub enum Want {
    Key(u32),
    Old(u64),
}

// Internal. The session of place i is old at the time t.
pub fn is_old(state: &[u8], t: u64, i: usize) -> bool
    requires { (i < sessions_max) × (size ≤ length state.now) }
    ensures { result ≡ old_at state.now t i }
{
    if place::key(state, i) == 0 {
        return false;
    }
    let since = place::time(state, i);
    if since < t {
        return OLD_AGE < t - since;
    }
    false
}

// The lowest place of an old session, or 32.
fn lowest_old(state: &[u8], t: u64) -> usize
    requires { size ≤ length state.now }
    ensures { result ≡ lowest (old_at state.now t) 0 sessions_max }
{
    for i in 0..SESSIONS {
        if is_old(state, t, i) {
            return i;
        }
    }
    SESSIONS
}

// Internal. The lowest place that fits, or 32. A number and no Option: it is what `keys::find` gives and `lowest` says, and one test of it does.
pub fn scan(state: &[u8], w: Want) -> usize
    requires { size ≤ length state.now }
    ensures { result ≡ lowest (fits_at state.now w) 0 sessions_max }
{
    match w {
        Want::Key(k) => keys::find(state, STREAM_KEYS_AT, SESSIONS, k),
        Want::Old(t) => lowest_old(state, t),
    }
}
