// Where each part of a receiver's state starts, for the code: specs/Layout.antt has the same for the definitions, and says what is there.
use rules::limits::{BLOCK, BLOCKS, BLOCKS_EACH, SESSIONS, SUBSCRIPTIONS};

// The own node ID and the number of subscriptions; six bytes are unused.
pub const OWN_AT: usize = 0;

pub const SUBSCRIPTION_COUNT_AT: usize = 1;
// Signatures of the subscriptions.
pub const SIGNATURES_AT: usize = 8;
// Times of the sessions.
pub const TIMES_AT: usize = SIGNATURES_AT + SUBSCRIPTIONS * 8;
// The free blocks as a set: bit b is 1 where block b is free.
pub const FREE_AT: usize = TIMES_AT + SESSIONS * 8;
// Kinds and types of the subscriptions.
pub const SUBSCRIPTION_KEYS_AT: usize = FREE_AT + 8;
// Streams of the sessions.
pub const STREAM_KEYS_AT: usize = SUBSCRIPTION_KEYS_AT + SUBSCRIPTIONS * 4;
// Of each session the number of bytes in hand (2), the expected transfer ID (1), and in one byte the toggle (bit 0) and the followed interface.
pub const CONTROLS_AT: usize = STREAM_KEYS_AT + SESSIONS * 4;
// Of each session the numbers of its blocks, in the order taken.
pub const BLOCK_LISTS_AT: usize = CONTROLS_AT + SESSIONS * 4;
// The blocks, which hold the gathered bytes.
pub const BLOCKS_AT: usize = BLOCK_LISTS_AT + SESSIONS * BLOCKS_EACH;
// The bytes of the whole layout.
pub const SIZE: usize = BLOCKS_AT + BLOCKS * BLOCK;
