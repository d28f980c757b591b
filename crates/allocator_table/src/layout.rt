// Where each part of an allocator's state starts, for the code: specs/Layout.antt has the same for the definitions.
use super::limits::{NODES, UNIQUE_ID};

// Time of the last message processed, numbers of gathered bytes and of entries, gathered bytes, entries.
pub const TIME_AT: usize = 0;

pub const GATHERED_COUNT_AT: usize = TIME_AT + 8;

pub const ENTRY_COUNT_AT: usize = GATHERED_COUNT_AT + 1;

pub const GATHERED_AT: usize = ENTRY_COUNT_AT + 1;

pub const ENTRIES_AT: usize = GATHERED_AT + UNIQUE_ID;
// An entry: a unique ID and a node ID.
pub const ENTRY: usize = UNIQUE_ID + 1;
// The bytes of the whole layout.
pub const SIZE: usize = ENTRIES_AT + NODES * ENTRY;
