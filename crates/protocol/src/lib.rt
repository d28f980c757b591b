// uavcan.protocol: NodeStatus (message 341) and GetNodeInfo (service 1). RULES 10.2, 10.6 to 10.8.
#![tactic(auto)]

pub mod get_node_info_request;
pub mod get_node_info_response;
pub mod laws;
mod name;
pub mod node_status;
