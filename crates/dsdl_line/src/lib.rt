// One line of a definition (RULES 17.2).
#![tactic(auto)]

pub mod shape;
