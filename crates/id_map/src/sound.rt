// The faults of a lent map (RULES 8.5), which answer 20. Every send runs this first.
ghost use Rattle.std.specs.Prelude.{◌&&◌, ◌≡◌, ◌≤◌, ◌<◌, length};
ghost use Rattle.bits.specs.Tabulate.{every};
ghost use Rattle.id_map.specs.Layout.{size, key_at, topic_of_key};
ghost use Rattle.id_map.specs.Sound.{sound_map};
ghost use Rattle.id_map.specs.inside.Sound.{empty_or_fits, keys_of};
ghost use Rattle.keys.specs.inside.Keys.{distinct};
ghost use Rattle.rules.specs.Limits.{entries_max};
ghost use Rattle.rules.specs.Map.{topic_fits};

use super::layout::{KEYS_AT, NEXTS_AT, SIZE};
use keys::MARKS;
use rules::limits::MAP_ENTRIES;

// A message's key has destination 0, a request's a type below 256 and a named destination.
fn key_fits(k: u32) -> bool
    ensures { result ≡ topic_fits (topic_of_key k) }
{
    let low = k % 256;
    if k < 0x1000000 {
        return low == 1;
    }
    if k < 0x1010000 {
        if low % 2 == 1 {
            return 1 < low;
        }
    }
    false
}

// Place i, whose key is k, is empty, or its topic and its next transfer ID are in range.
fn place_fits(map: &[u8], i: usize, k: u32) -> bool
    requires { ((i < entries_max) × (size ≤ length map.now)) × (k ≡ key_at map.now i) }
    ensures { result ≡ empty_or_fits map.now i }
{
    if k == 0 {
        return true;
    }
    if key_fits(k) {
        return map[NEXTS_AT + i] < 32;
    }
    false
}

// Place by place, up to the last entry: each fits, and no key is there twice. One walk for both, since it runs at every call.
fn places_sound(map: &[u8], table: &[u32]) -> bool
    requires { (size ≤ length map.now) × (table.now ≡ keys_of map.now) }
    ensures { result ≡ (every (empty_or_fits map.now) 0 entries_max && distinct table.now) }
{
    let mut marks = [0u8; MARKS];
    let mut left = table.len() as u32 - keys::count(table, 0);
    let mut i = 0;
    // A while: the walk ends at the last entry, which is before the end of the table.
    while 0 < left {
        let k = table[i];
        let first = keys::mark(&mut marks, k);
        if place_fits(map, i, k) {
            if keys::is_alone(table, k, first) {
                left -= (k != 0) as u32;
                i += 1;
            } else {
                return false;
            }
        } else {
            return false;
        }
    }
    true
}

// Internal. The map has no fault (RULES 8.5).
pub fn is_sound(map: &[u8]) -> bool
    ensures { result ≡ sound_map map.now }
{
    if map.len() < SIZE {
        return false;
    }
    let mut table = [0u32; MAP_ENTRIES];
    keys::load(&mut table, map, KEYS_AT);
    places_sound(map, &table)
}
