// Text of type definitions (RULES 17.1): characters, words, lines and names.
#![tactic(auto)]

pub mod class;
pub mod line;
pub mod name;
pub mod text;
pub mod word;
