// IEEE 754 binary16 and binary32, one from the other (RULES 9.12): as bit patterns, and at an f32.
#![tactic(auto)]

pub mod float;
pub mod laws;
pub mod pattern;
