// One entry of the map (RULES 8.1, 8.3).
ghost use Rattle.std.specs.Prelude.{◌≡◌, ◌%◌, ◌≤◌, ◌<◌, length};
ghost use Rattle.id_map.specs.Layout.{size, key_at, time_at, slot_at, topic_of_key, with_slot};
ghost use Rattle.rules.specs.Limits.{entries_max};
ghost use Rattle.rules.specs.Map as rules;

use super::layout::{KEYS_AT, NEXTS_AT, TIMES_AT};

// Internal. The key of a transfer type, type ID and destination.
pub fn key_of(transfer_type: u32, type_id: u32, destination: u32) -> u32
    requires { (transfer_type < 2) × ((type_id < 65536) × (destination < 128)) }
    ensures { (topic_of_key result ≡ record { transfer_type = transfer_type; type = type_id; destination = destination }) × (result % 2 ≡ 1) }
{
    (transfer_type * 65536 + type_id) * 256 + (destination * 2 + 1)
}

// Internal. The key of place i.
pub fn key(map: &[u8], i: usize) -> u32
    requires { (i < entries_max) × (size ≤ length map.now) }
    ensures { result ≡ key_at map.now i }
{
    bits::le::get_u32(map, KEYS_AT + i * 4)
}

// Internal. The time of the last send at place i.
pub fn time(map: &[u8], i: usize) -> u64
    requires { (i < entries_max) × (size ≤ length map.now) }
    ensures { result ≡ time_at map.now i }
{
    bits::le::get_u64(map, TIMES_AT + i * 8)
}

// Internal. The transfer ID that the entry of the key k gets at place i: 0 if it is new there.
pub fn drawn(map: &[u8], i: usize, k: u32) -> u8
    requires { ((i < entries_max) × (size ≤ length map.now)) × (k % 2 ≡ 1) }
    ensures { result ≡ rules.drawn (topic_of_key k) (slot_at map.now i) }
{
    if key(map, i) == k {
        return map[NEXTS_AT + i];
    }
    0
}

// Internal. The entry of the key k at place i, with its next transfer ID and the time of a send.
pub fn store(map: &mut [u8], i: usize, k: u32, next: u8, time: u64)
    requires { ((i < entries_max) × (size ≤ length map.old)) × (k % 2 ≡ 1) }
    ensures { map.new ≡ with_slot map.old i (rules.used (topic_of_key k) next time) }
{
    bits::le::put_u32(map, KEYS_AT + i * 4, k);
    bits::le::put_u64(map, TIMES_AT + i * 8, time);
    bits::le::put_at(map, NEXTS_AT + i, 1, next as u64);
}
