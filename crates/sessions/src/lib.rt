// The sessions in a receiver's state (RULES 4.3, 4.12, 5.4): one place of its table, finding one, the blocks, and the test for 20 of the whole state.
#![tactic(auto)]

pub mod gathered;
pub mod place;
pub mod relief;
pub mod scan;
pub mod sound;
