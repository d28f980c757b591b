// Numbers in type definitions (RULES 17.5, 17.6).
#![tactic(auto)]

pub mod character;
pub mod floating;
pub mod integer;
pub mod significand;
