// The record of a frame that came, for the code: specs/Layout.antt has the same for the definitions.

// The bytes of a record.
pub const ARRIVAL: usize = 24;
// Where in it the ID, the interface, the length of the data and the data are. The time is at the front.
pub const ID_AT: usize = 8;

pub const INTERFACE_AT: usize = 12;

pub const LENGTH_AT: usize = 13;

pub const DATA_AT: usize = 14;
// The bytes of a result word.
pub const RESULT: usize = 8;
// Records that one call uses up, at most.
pub const RECORDS: usize = 65536;
