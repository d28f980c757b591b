// The definitions that a call gives, one after the other in its source (RULES 17.12).
#![tactic(auto)]

pub mod oversized;
pub mod places;
