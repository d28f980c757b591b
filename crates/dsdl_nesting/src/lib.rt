// Nested types and signatures (RULES 17.10, 17.11).
#![tactic(auto)]

pub mod base;
pub mod index;
pub mod marks;
pub mod named;
pub mod sets;
pub mod signature;
