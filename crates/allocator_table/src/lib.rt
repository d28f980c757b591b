// The state of an allocator in lent bytes (RULES 16.1, 16.7, 16.10): its layout, the faults that answer 20, its table, and the search for a free node ID.
#![tactic(auto)]

pub mod entry;
pub mod find;
pub mod free;
pub mod layout;
pub mod limits;
pub mod sound;
pub mod store;
