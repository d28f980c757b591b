// Types in definitions, and what constants of them may be (RULES 17.3, 17.4, 17.6, 17.7).
#![tactic(auto)]

pub mod base;
pub mod constant;
pub mod initializer;
pub mod size;
