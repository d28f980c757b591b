// The place of a topic's entry, or that of a new one (RULES 8.2).
ghost use Rattle.std.specs.Prelude.{◌≡◌, ◌%◌, ◌≤◌, ◌<◌, length};
ghost use Rattle.id_map.specs.Layout.{size, slot_at, topic_of_key, map_of};
ghost use Rattle.id_map.specs.inside.Find.{place_or32};
ghost use Rattle.keys.specs.inside.Keys.{lowest};
ghost use Rattle.rules.specs.Limits.{entries_max};
ghost use Rattle.rules.specs.Map.{is_unused, slot_for};

use super::entry;
use super::layout::KEYS_AT;
use rules::limits::{MAP_ENTRIES, UNUSED_AGE};

// The entry of place i was unused for long at the time t.
fn is_unused(map: &[u8], t: u64, i: usize) -> bool
    requires { (i < entries_max) × (size ≤ length map.now) }
    ensures { result ≡ is_unused t (slot_at map.now i) }
{
    if entry::key(map, i) == 0 {
        return false;
    }
    let since = entry::time(map, i);
    if since < t {
        return UNUSED_AGE <= t - since;
    }
    false
}

// The lowest place of such an entry, or 32.
fn lowest_unused(map: &[u8], t: u64) -> usize
    requires { size ≤ length map.now }
    ensures { result ≡ lowest (λ i. is_unused t (slot_at map.now i)) 0 entries_max }
{
    for i in 0..MAP_ENTRIES {
        if is_unused(map, t, i) {
            return i;
        }
    }
    MAP_ENTRIES
}

// Internal. The place of the entry of the key k, else the lowest empty one, else the lowest unused for long; or 32, as the contract has it (`place_or32`).
pub fn place(map: &[u8], k: u32, time: u64) -> usize
    requires { (size ≤ length map.now) × (k % 2 ≡ 1) }
    ensures { result ≡ place_or32 (slot_for (topic_of_key k) time (map_of map.now)) }
{
    let found = keys::find(map, KEYS_AT, MAP_ENTRIES, k);
    if found < MAP_ENTRIES {
        return found;
    }
    let free = keys::find(map, KEYS_AT, MAP_ENTRIES, 0);
    if free < MAP_ENTRIES {
        return free;
    }
    lowest_unused(map, time)
}
