// Where each part of a queue starts, for the code: specs/Layout.antt has the same for the definitions.

// The number of records, and the records: the one that goes last at place 0.
pub const COUNT_AT: usize = 0;

pub const RECORDS_AT: usize = COUNT_AT + 8;
