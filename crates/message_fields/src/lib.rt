// Messages as rows of numbers of 64 bits, in which C lends and gets them (RULES 13.5). A file for each type: `decode` reads a payload into a row,
// `encode` writes the message of a row and of lists of bytes.
#![tactic(auto)]

pub mod allocation;
mod as_row;
pub mod battery_info;
pub mod execute_opcode_request;
pub mod execute_opcode_response;
pub mod get_node_info_request;
pub mod get_node_info_response;
pub mod get_set_request;
pub mod get_set_response;
pub mod key_value;
pub mod log_message;
pub mod node_status;
mod param_value;
pub mod raw_command;
