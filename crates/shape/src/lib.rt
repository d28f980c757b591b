// Messages described once (RULES 9): bits, reading, writing and refusals follow from a description, and so do the laws of the return trip.
#![tactic(auto)]

pub mod answer;
pub mod cast;
pub mod items;
pub mod last;
pub mod laws;
pub mod number;
pub mod part;
pub mod signed;
