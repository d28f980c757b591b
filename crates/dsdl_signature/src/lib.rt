// Signatures from definitions (RULES 17.10 to 17.12).
#![tactic(auto)]

pub mod answer;
pub mod call;
pub mod fault;
pub mod forms;
pub mod laws;
pub mod records;
