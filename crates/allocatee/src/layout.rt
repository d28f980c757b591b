// Where each part of an allocatee's state starts, for the code: specs/Layout.antt has the same for the definitions.
use super::limits::UNIQUE_ID;

// Unique ID, preferred node ID, node ID that was taken, follow-up that is pending, when the request timer started, and two random numbers: for the request
// period and for the follow-up delay.
pub const UNIQUE_AT: usize = 0;

pub const PREFERRED_AT: usize = UNIQUE_AT + UNIQUE_ID;

pub const NODE_AT: usize = PREFERRED_AT + 1;

pub const PENDING_AT: usize = NODE_AT + 1;

pub const SINCE_AT: usize = PENDING_AT + 1;

pub const PERIOD_AT: usize = SINCE_AT + 8;

pub const DELAY_AT: usize = PERIOD_AT + 4;
// The bytes of the whole layout.
pub const SIZE: usize = DELAY_AT + 4;
