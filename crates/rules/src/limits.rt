// The limits of the rules (RULES 1.3) for the code: specs/Limits.antt has the same numbers for the definitions, with their sections.

// Sessions that a receiver holds, and the places of its table.
pub const SESSIONS: usize = 32;
// Subscriptions that a receiver is set up with, at most.
pub const SUBSCRIPTIONS: usize = 64;
// Bytes of a payload, at most.
pub const PAYLOAD: usize = 512;
// Bytes that a session gathers, at most: the payload and its checksum.
pub const GATHERED: usize = 514;
// Blocks that the gathered bytes of all sessions lie in, and bytes of a block.
pub const BLOCKS: usize = 64;

pub const BLOCK: usize = 64;
// Blocks of one session, at most: those of 514 bytes.
pub const BLOCKS_EACH: usize = 9;
// A session is old when its age in microseconds is above this.
pub const OLD_AGE: u64 = 2_000_000;
// Interfaces that frames come by, numbered from 0.
pub const INTERFACES: u8 = 3;
// A session may follow another interface when its age in microseconds is above this.
pub const SWITCH_DELAY: u64 = 1_000_000;
// Entries of a transfer-ID map.
pub const MAP_ENTRIES: usize = 32;
// A map's entry may be replaced once it was unused for this many microseconds.
pub const UNUSED_AGE: u64 = 2_000_000;
// Bytes of a frame record, and of a subscription record.
pub const FRAME_RECORD: usize = 13;

pub const SUBSCRIPTION_RECORD: usize = 13;
// Bytes of a frame, and those of them that are payload, at most.
pub const FRAME_DATA: usize = 8;

pub const FRAME_PAYLOAD: usize = 7;
