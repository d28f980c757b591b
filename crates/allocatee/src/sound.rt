// The faults of a lent state (RULES 21.6), which answer 20.
ghost use Rattle.std.specs.Prelude.{◌≡◌};
ghost use Rattle.allocatee.specs.Layout.{sound_state};

use super::layout::SIZE;
use super::limits::{NODE, UNIQUE_ID};
use super::view;

// The state has no fault.
pub fn is_sound(bytes: &[u8]) -> bool
    ensures { result ≡ sound_state bytes.now }
{
    if bytes.len() < SIZE {
        return false;
    }
    if NODE < view::preferred(bytes) {
        return false;
    }
    if NODE < view::node(bytes) {
        return false;
    }
    view::pending(bytes) <= UNIQUE_ID
}
