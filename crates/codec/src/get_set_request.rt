// GetSet's request by hand.
ghost use Rattle.std.specs.Prelude.{◌≤◌, length};

use super::param_value;
use codec_text::answer::Encoded;
use codec_text::{answer, fields, names, put};
use console::Console;
use protocol_param::get_set_request;
use protocol_param::get_set_request::Request;
use shape::answer::Refusal;

const NAMES: [u8; 96] =
    *b"index value.tag value.integer_value value.real_value value.boolean_value value.string_value name";

fn put_fields(
    console: &mut Console,
    x: Request,
    payload: &[u8],
    out: &mut [u8],
    at: usize,
) -> usize {
    let v = x.value;
    let text = get_set_request::string_value(payload);
    let a = answer::number(console, out, at, names::nth(&NAMES, 0), x.index);
    let b = param_value::put(console, out, a, &NAMES, 1, v, names::nth(&NAMES, 5), text);
    answer::list(
        console,
        out,
        b,
        names::nth(&NAMES, 6),
        get_set_request::name(payload),
    )
}

pub fn decode(console: &mut Console, payload: &[u8], out: &mut [u8], at: usize) -> usize {
    match get_set_request::decode(payload) {
        Err(r) => answer::refused(console, out, at, r.number()),
        Ok(x) => {
            let o = put::byte(console, out, at, 48);
            put_fields(console, x, payload, out, o)
        }
    }
}

// The call on fields that were read.
fn written(v: [i64; 5], text: &[u8], name: &[u8], out: &mut [u8]) -> Result<usize, Refusal> {
    if param_value::is_no_float(v[1], v[3]) {
        return Err(Refusal::NotAllowed);
    }
    let x = param_value::given(v[1], v[2], v[3], v[4]);
    get_set_request::encode(v[0], x, text, name, out)
}

// Internal.
pub fn encode(words: &[u8], bytes: &mut [u8], out: &mut [u8]) -> Encoded
    requires { length words.now ≤ length bytes.old }
{
    let mut v = [0i64; 5];
    fields::read(&NAMES, words, &mut v, bytes)?;
    let text = fields::list(words, names::nth(&NAMES, 5), bytes);
    let name = fields::list(words, names::nth(&NAMES, 6), bytes);
    Some(written(v, text, name, out))
}
