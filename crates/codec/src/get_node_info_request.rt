// GetNodeInfo's request by hand: it has no fields.
use codec_text::answer;
use codec_text::answer::Encoded;
use console::Console;
use protocol::get_node_info_request;

pub fn decode(console: &mut Console, payload: &[u8], out: &mut [u8], at: usize) -> usize {
    match get_node_info_request::decode(payload) {
        Err(r) => answer::refused(console, out, at, r.number()),
        Ok(()) => answer::numbers(console, out, at, b"", &[0i64; 0]),
    }
}

pub fn encode(words: &[u8], bytes: &mut [u8], out: &mut [u8]) -> Encoded {
    if 0 < words.len() {
        return None;
    }
    Some(get_node_info_request::encode(out))
}
