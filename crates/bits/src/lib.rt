// Bits and bytes (RULES 9.1 to 9.3): parts of slices, numbers low byte first, fields in the order of bits, the width of a length field.
// With `checksum` it is the ground of the stack, and knows nothing of frames or messages.
#![tactic(auto)]

pub mod field;
pub mod laws;
pub mod le;
pub mod part;
pub mod width;
