// uavcan.protocol.debug: KeyValue (message 16370) and LogMessage (message 16383). RULES 10.4, 10.5.
#![tactic(auto)]

pub mod key_value;
pub mod laws;
pub mod log_message;
