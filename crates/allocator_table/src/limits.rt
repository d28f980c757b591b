// The limits of an allocator, for the code: specs/Limits.antt has the same for the definitions.

// The bytes of a unique ID, and those of it in a request.
pub const UNIQUE_ID: usize = 16;

pub const STAGE: usize = 6;
// The largest node ID that is given, which is also the number of entries that there can be.
pub const NODES: usize = 125;
// The age above which what is gathered is dropped.
pub const FOLLOWUP_TIMEOUT: u64 = 500000;
