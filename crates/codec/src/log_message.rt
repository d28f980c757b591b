// LogMessage by hand.
ghost use Rattle.std.specs.Prelude.{◌≤◌, length};

use codec_text::answer::Encoded;
use codec_text::{answer, fields, names};
use console::Console;
use protocol_debug::log_message;

const NAMES: [u8; 23] = *b"level.value source text";

pub fn decode(console: &mut Console, payload: &[u8], out: &mut [u8], at: usize) -> usize {
    match log_message::decode(payload) {
        Err(r) => answer::refused(console, out, at, r.number()),
        Ok(x) => {
            let v = [x.level];
            let a = answer::numbers(console, out, at, &NAMES, &v);
            let b = answer::list(
                console,
                out,
                a,
                names::nth(&NAMES, 1),
                log_message::source(payload),
            );
            answer::list(
                console,
                out,
                b,
                names::nth(&NAMES, 2),
                log_message::text(payload),
            )
        }
    }
}

// Internal.
pub fn encode(words: &[u8], bytes: &mut [u8], out: &mut [u8]) -> Encoded
    requires { length words.now ≤ length bytes.old }
{
    let mut v = [0i64; 1];
    fields::read(&NAMES, words, &mut v, bytes)?;
    let source = fields::list(words, names::nth(&NAMES, 1), bytes);
    let text = fields::list(words, names::nth(&NAMES, 2), bytes);
    Some(log_message::encode(v[0], source, text, out))
}
