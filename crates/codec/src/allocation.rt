// Allocation by hand.
ghost use Rattle.std.specs.Prelude.{◌≤◌, length};

use codec_text::answer::Encoded;
use codec_text::{answer, fields, names};
use console::Console;
use protocol_dynamic_node_id::allocation;

const NAMES: [u8; 41] = *b"node_id first_part_of_unique_id unique_id";

pub fn decode(console: &mut Console, payload: &[u8], out: &mut [u8], at: usize) -> usize {
    match allocation::decode(payload) {
        Err(r) => answer::refused(console, out, at, r.number()),
        Ok(x) => {
            let v = [x.node_id, x.first_part_of_unique_id];
            let o = answer::numbers(console, out, at, &NAMES, &v);
            answer::list(
                console,
                out,
                o,
                names::nth(&NAMES, 2),
                allocation::unique_id(payload),
            )
        }
    }
}

// Internal.
pub fn encode(words: &[u8], bytes: &mut [u8], out: &mut [u8]) -> Encoded
    requires { length words.now ≤ length bytes.old }
{
    let mut v = [0i64; 2];
    fields::read(&NAMES, words, &mut v, bytes)?;
    let unique_id = fields::list(words, names::nth(&NAMES, 2), bytes);
    Some(allocation::encode(v[0], v[1], unique_id, out))
}
