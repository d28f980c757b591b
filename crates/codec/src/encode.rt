// Encoding: fields as text, and the message in hexadecimal.
ghost use Rattle.std.specs.Prelude.{◌≤◌, length};

use super::{
    allocation, battery_info, get_node_info_request, get_node_info_response, get_set_request,
    get_set_response, key_value, log_message, numbers, raw_command,
};
use codec_text::answer::Encoded;
use codec_text::{answer, number, put};
use console::Console;
use protocol::node_status::NodeStatus;
use protocol_param::execute_opcode_request::Request;
use protocol_param::execute_opcode_response::Response;

// A service by its name, and which half of it.
fn service(name: &[u8], words: &[u8], bytes: &mut [u8], message: &mut [u8]) -> Encoded
    requires { length words.now ≤ length bytes.old }
{
    if name == b"GetNodeInfo.Request".as_slice() {
        return get_node_info_request::encode(words, bytes, message);
    }
    if name == b"GetNodeInfo.Response".as_slice() {
        return get_node_info_response::encode(words, bytes, message);
    }
    if name == b"GetSet.Request".as_slice() {
        return get_set_request::encode(words, bytes, message);
    }
    if name == b"GetSet.Response".as_slice() {
        return get_set_response::encode(words, bytes, message);
    }
    if name == b"ExecuteOpcode.Request".as_slice() {
        return numbers::encode::<2, Request>(words, bytes, message);
    }
    if name == b"ExecuteOpcode.Response".as_slice() {
        return numbers::encode::<2, Response>(words, bytes, message);
    }
    None
}

// The type by its name.
fn typed(name: &[u8], words: &[u8], bytes: &mut [u8], message: &mut [u8]) -> Encoded
    requires { length words.now ≤ length bytes.old }
{
    if name == b"NodeStatus".as_slice() {
        return numbers::encode::<5, NodeStatus>(words, bytes, message);
    }
    if name == b"Allocation".as_slice() {
        return allocation::encode(words, bytes, message);
    }
    if name == b"KeyValue".as_slice() {
        return key_value::encode(words, bytes, message);
    }
    if name == b"LogMessage".as_slice() {
        return log_message::encode(words, bytes, message);
    }
    if name == b"BatteryInfo".as_slice() {
        return battery_info::encode(words, bytes, message);
    }
    if name == b"RawCommand".as_slice() {
        return raw_command::encode(words, message);
    }
    service(name, words, bytes, message)
}

// By way of the buffers for the lists and for the message.
fn through(
    console: &mut Console,
    name: &[u8],
    words: &[u8],
    bytes: &mut [u8],
    message: &mut [u8],
    out: &mut [u8],
    at: usize,
) -> usize
    requires { length words.now ≤ length bytes.old }
{
    let e = typed(name, words, bytes, message);
    answer::written(console, out, at, e, message)
}

// The answer for a message buffer of that room.
fn into(
    console: &mut Console,
    name: &[u8],
    words: &[u8],
    room: usize,
    out: &mut [u8],
    at: usize,
) -> usize
    requires { (room ≤ 512) × (length words.now ≤ 8192) }
{
    let mut bytes = [0u8; 8192];
    let mut message = [0u8; 512];
    through(
        console,
        name,
        words,
        &mut bytes,
        &mut message[0..room],
        out,
        at,
    )
}

// Internal. The answer to `encode`, a type's name and the rest: the room, then the fields.
pub fn answer(console: &mut Console, name: &[u8], rest: &[u8], out: &mut [u8], at: usize) -> usize
    requires { length rest.now ≤ 8192 }
{
    let e = digits::find(rest, 0, 32);
    let Some(n) = number::digits(&rest[0..e]) else {
        return put::ill_formed(console, out, at);
    };
    into(console, name, &rest[e..], answer::room(n), out, at)
}
