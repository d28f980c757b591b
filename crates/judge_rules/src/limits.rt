// The limit of the judge, for the code: specs/Limits.antt has the same for the definitions.

// Streams with a named source in a capture, at most.
pub const STREAMS: usize = 64;
