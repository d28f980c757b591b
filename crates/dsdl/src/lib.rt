// Whole definitions (RULES 17.8, 17.9).
#![tactic(auto)]

pub mod fault;
pub mod laws;
pub mod names;
pub mod service;
