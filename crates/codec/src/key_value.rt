// KeyValue by hand. Its value is the number that the 32 bits of a float make.
ghost use Rattle.std.specs.Prelude.{◌≤◌, length};

use codec_text::answer::Encoded;
use codec_text::{answer, fields, float, names};
use console::Console;
use protocol_debug::key_value;
use shape::answer::Refusal;

const NAMES: [u8; 9] = *b"value key";

pub fn decode(console: &mut Console, payload: &[u8], out: &mut [u8], at: usize) -> usize {
    match key_value::decode(payload) {
        Err(r) => answer::refused(console, out, at, r.number()),
        Ok(x) => {
            let v = [x.value as i64];
            let o = answer::numbers(console, out, at, &NAMES, &v);
            answer::list(
                console,
                out,
                o,
                names::nth(&NAMES, 1),
                key_value::key(payload),
            )
        }
    }
}

// The call on fields that were read.
fn written(value: i64, key: &[u8], out: &mut [u8]) -> Result<usize, Refusal> {
    if !float::is_pattern(value) {
        return Err(Refusal::NotAllowed);
    }
    key_value::encode(float::bits(value), key, out)
}

// Internal.
pub fn encode(words: &[u8], bytes: &mut [u8], out: &mut [u8]) -> Encoded
    requires { length words.now ≤ length bytes.old }
{
    let mut v = [0i64; 1];
    fields::read(&NAMES, words, &mut v, bytes)?;
    let key = fields::list(words, names::nth(&NAMES, 1), bytes);
    Some(written(v[0], key, out))
}
