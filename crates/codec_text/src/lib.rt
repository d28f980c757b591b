// Requests and answers of the codec program as text, for every type: numbers, lists, names, fields.
#![tactic(auto)]

pub mod answer;
pub mod fields;
pub mod float;
pub mod hex;
pub mod names;
pub mod number;
pub mod put;
pub mod signed;
