// uavcan.equipment.power: BatteryInfo (message 1092). RULES 10.9.
#![tactic(auto)]

pub mod battery_info;
pub mod laws;
