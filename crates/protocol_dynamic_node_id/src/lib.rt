// uavcan.protocol.dynamic_node_id: Allocation (message 1). RULES 10.3.
#![tactic(auto)]

pub mod allocation;
pub mod laws;
