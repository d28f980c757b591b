// What holds of normalized forms and signatures (RULES 17.13).
#![tactic(auto)]

pub mod laws;
