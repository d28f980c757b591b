// What sessions keep their bytes in: a set of numbers below 64 in one word.
#![tactic(auto)]

pub mod set;
