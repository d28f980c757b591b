// uavcan.equipment.esc: RawCommand.
#![tactic(auto)]

pub mod laws;
pub mod raw_command;
