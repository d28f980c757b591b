// The two checksums of the protocol: CRC-16-CCITT-FALSE over transfers (RULES 6) and CRC-64-WE over type definitions (RULES 11).
#![tactic(auto)]

pub mod crc16;
pub mod crc64;
pub mod laws;
