// Decoding: a payload in hexadecimal, and its fields as text.
ghost use Rattle.std.specs.Prelude.{◌≤◌, length};

use super::{
    allocation, battery_info, get_node_info_request, get_node_info_response, get_set_request,
    get_set_response, key_value, log_message, numbers, raw_command,
};
use codec_text::{hex, put};
use console::Console;
use protocol::node_status::NodeStatus;
use protocol_param::execute_opcode_request::Request;
use protocol_param::execute_opcode_response::Response;

// A service by its name, and which half of it.
fn service(console: &mut Console, name: &[u8], payload: &[u8], out: &mut [u8], at: usize) -> usize {
    if name == b"GetNodeInfo.Request".as_slice() {
        return get_node_info_request::decode(console, payload, out, at);
    }
    if name == b"GetNodeInfo.Response".as_slice() {
        return get_node_info_response::decode(console, payload, out, at);
    }
    if name == b"GetSet.Request".as_slice() {
        return get_set_request::decode(console, payload, out, at);
    }
    if name == b"GetSet.Response".as_slice() {
        return get_set_response::decode(console, payload, out, at);
    }
    if name == b"ExecuteOpcode.Request".as_slice() {
        return numbers::decode::<2, Request>(console, payload, out, at);
    }
    if name == b"ExecuteOpcode.Response".as_slice() {
        return numbers::decode::<2, Response>(console, payload, out, at);
    }
    put::ill_formed(console, out, at)
}

// The type by its name.
fn typed(console: &mut Console, name: &[u8], payload: &[u8], out: &mut [u8], at: usize) -> usize {
    if name == b"NodeStatus".as_slice() {
        return numbers::decode::<5, NodeStatus>(console, payload, out, at);
    }
    if name == b"Allocation".as_slice() {
        return allocation::decode(console, payload, out, at);
    }
    if name == b"KeyValue".as_slice() {
        return key_value::decode(console, payload, out, at);
    }
    if name == b"LogMessage".as_slice() {
        return log_message::decode(console, payload, out, at);
    }
    if name == b"BatteryInfo".as_slice() {
        return battery_info::decode(console, payload, out, at);
    }
    if name == b"RawCommand".as_slice() {
        return raw_command::decode(console, payload, out, at);
    }
    service(console, name, payload, out, at)
}

// By way of a buffer for the payload.
fn through(
    console: &mut Console,
    name: &[u8],
    rest: &[u8],
    bytes: &mut [u8],
    out: &mut [u8],
    at: usize,
) -> usize
    requires { length rest.now ≤ length bytes.old }
{
    match hex::read(rest, bytes, 0) {
        Some(n) => typed(console, name, shape::part::within(bytes, 0, n), out, at),
        None => put::ill_formed(console, out, at),
    }
}

// Internal. The answer to `decode`, a type's name and the rest.
pub fn answer(console: &mut Console, name: &[u8], rest: &[u8], out: &mut [u8], at: usize) -> usize
    requires { length rest.now ≤ 8192 }
{
    let mut bytes = [0u8; 8192];
    through(console, name, rest, &mut bytes, out, at)
}
