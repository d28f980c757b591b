// Where each part of a map starts, for the code: specs/Layout.antt has the same for the definitions.
use rules::limits::MAP_ENTRIES;

// Keys, times of the last send, and next transfer IDs of the entries.
pub const KEYS_AT: usize = 0;

pub const TIMES_AT: usize = KEYS_AT + MAP_ENTRIES * 4;

pub const NEXTS_AT: usize = TIMES_AT + MAP_ENTRIES * 8;
// The bytes of the whole layout.
pub const SIZE: usize = NEXTS_AT + MAP_ENTRIES;
