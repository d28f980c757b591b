// The normalized form of a definition (RULES 17.9): its length, and its text in a lent buffer.
#![tactic(auto)]

pub mod decimal;
pub mod form;
pub mod place;
pub mod size;
