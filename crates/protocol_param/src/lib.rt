// uavcan.protocol.param: GetSet and ExecuteOpcode.
#![tactic(auto)]

pub mod execute_opcode_request;
pub mod execute_opcode_response;
pub mod get_set_request;
pub mod get_set_response;
pub mod laws;
pub mod value;
