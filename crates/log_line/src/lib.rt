// The lines of a log (RULES 12.2): read into a frame and its time, and written, with the laws of their form.
#![tactic(auto)]

pub mod laws;
pub mod read;
pub mod write;
