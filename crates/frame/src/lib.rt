// Frames (RULES 2): the ID and the tail byte read once into a head, which is then checked, a stream as a key, and the record of a frame.
#![tactic(auto)]

pub mod check;
pub mod head;
pub mod key;
pub mod record;
