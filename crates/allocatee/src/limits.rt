// The limits of an allocatee, for the code: specs/Limits.antt has the same for the definitions.

// The bytes of a unique ID, and those of it in a request.
pub const UNIQUE_ID: usize = 16;

pub const STAGE: usize = 6;
// The bytes of a request.
pub const REQUEST: usize = STAGE + 1;
// The largest node ID.
pub const NODE: u32 = 127;
// The shortest request period, and how many there are from it on; as many follow-up delays from 0 on.
pub const PERIOD: u64 = 600000;

pub const SPREAD: u32 = 400001;
