// GetSet's response by hand.
ghost use Rattle.std.specs.Prelude.{◌≤◌, length};

use super::param_value;
use codec_text::answer::Encoded;
use codec_text::{answer, fields, names, put};
use console::Console;
use protocol_param::get_set_response;
use protocol_param::get_set_response::Response;
use shape::answer::Refusal;

const NAMES: [u8; 334] = *b"value.tag value.integer_value value.real_value value.boolean_value \
default_value.tag default_value.integer_value default_value.real_value default_value.boolean_value \
max_value.tag max_value.integer_value max_value.real_value min_value.tag min_value.integer_value min_value.real_value \
value.string_value default_value.string_value name";

fn put_values(
    console: &mut Console,
    x: Response,
    payload: &[u8],
    out: &mut [u8],
    at: usize,
) -> usize {
    let value = x.value;
    let default_value = x.default_value;
    let text = get_set_response::string_value(payload);
    let other = get_set_response::default_string_value(payload);
    let a = param_value::put(
        console,
        out,
        at,
        &NAMES,
        0,
        value,
        names::nth(&NAMES, 14),
        text,
    );
    param_value::put(
        console,
        out,
        a,
        &NAMES,
        4,
        default_value,
        names::nth(&NAMES, 15),
        other,
    )
}

// NumericValue has no text.
fn put_limits(console: &mut Console, x: Response, none: &[u8], out: &mut [u8], at: usize) -> usize {
    let max_value = x.max_value;
    let min_value = x.min_value;
    let a = param_value::put(console, out, at, &NAMES, 8, max_value, none, none);
    param_value::put(console, out, a, &NAMES, 11, min_value, none, none)
}

fn put_fields(
    console: &mut Console,
    x: Response,
    payload: &[u8],
    out: &mut [u8],
    at: usize,
) -> usize {
    let a = put_values(console, x, payload, out, at);
    let b = put_limits(console, x, &payload[0..0], out, a);
    answer::list(
        console,
        out,
        b,
        names::nth(&NAMES, 16),
        get_set_response::name(payload),
    )
}

pub fn decode(console: &mut Console, payload: &[u8], out: &mut [u8], at: usize) -> usize {
    match get_set_response::decode(payload) {
        Err(r) => answer::refused(console, out, at, r.number()),
        Ok(x) => {
            let o = put::byte(console, out, at, 48);
            put_fields(console, x, payload, out, o)
        }
    }
}

// The call on fields that were read.
fn call(
    v: [i64; 14],
    text: &[u8],
    other: &[u8],
    name: &[u8],
    out: &mut [u8],
) -> Result<usize, Refusal> {
    let value = param_value::given(v[0], v[1], v[2], v[3]);
    let default_value = param_value::given(v[4], v[5], v[6], v[7]);
    let max_value = param_value::given(v[8], v[9], v[10], 0);
    let min_value = param_value::given(v[11], v[12], v[13], 0);
    get_set_response::encode(
        value,
        text,
        default_value,
        other,
        max_value,
        min_value,
        name,
        out,
    )
}

// A float that is none answers 17, after 27.
fn refused(answer: Result<usize, Refusal>) -> Refusal {
    match answer {
        Err(Refusal::NoCase) => Refusal::NoCase,
        _ => Refusal::NotAllowed,
    }
}

fn written(
    v: [i64; 14],
    text: &[u8],
    other: &[u8],
    name: &[u8],
    out: &mut [u8],
) -> Result<usize, Refusal> {
    let values = param_value::is_no_float(v[0], v[2]) | param_value::is_no_float(v[4], v[6]);
    let limits = param_value::is_no_float(v[8], v[10]) | param_value::is_no_float(v[11], v[13]);
    if values | limits {
        return Err(refused(call(v, text, other, name, &mut out[0..0])));
    }
    call(v, text, other, name, out)
}

// Internal.
pub fn encode(words: &[u8], bytes: &mut [u8], out: &mut [u8]) -> Encoded
    requires { length words.now ≤ length bytes.old }
{
    let mut v = [0i64; 14];
    fields::read(&NAMES, words, &mut v, bytes)?;
    let text = fields::list(words, names::nth(&NAMES, 14), bytes);
    let other = fields::list(words, names::nth(&NAMES, 15), bytes);
    let name = fields::list(words, names::nth(&NAMES, 16), bytes);
    Some(written(v, text, other, name, out))
}
