// The layout of a receiver's state in lent bytes (RULES 5.2). `subscriptions` and `sessions` have the code that reads and writes it.
#![tactic(auto)]

pub mod layout;
