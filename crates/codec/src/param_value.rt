// The value of a parameter by hand: its tag, and a field for each of its cases.
ghost use Rattle.std.specs.Prelude.{◌≤◌};

use codec_text::{answer, float, names};
use console::Console;
use protocol_param::value;
use protocol_param::value::Value;

// Internal. The tag, under the i-th name, and the field of the case: a number under one of the names after it, or the text under its own.
pub fn put(
    console: &mut Console,
    out: &mut [u8],
    at: usize,
    names: &[u8],
    i: usize,
    v: Value,
    text_name: &[u8],
    text: &[u8],
) -> usize
    requires { i ≤ 100 }
{
    match v {
        Value::Empty => answer::number(console, out, at, names::nth(names, i), 0),
        Value::Integer(z) => {
            let a = answer::number(console, out, at, names::nth(names, i), 1);
            answer::number(console, out, a, names::nth(names, i + 1), z)
        }
        Value::Real(x) => {
            let a = answer::number(console, out, at, names::nth(names, i), 2);
            answer::number(console, out, a, names::nth(names, i + 2), x as i64)
        }
        Value::Boolean(z) => {
            let a = answer::number(console, out, at, names::nth(names, i), 3);
            answer::number(console, out, a, names::nth(names, i + 3), z)
        }
        Value::Text => {
            let a = answer::number(console, out, at, names::nth(names, i), 4);
            answer::list(console, out, a, text_name, text)
        }
        Value::Unknown => at,
    }
}

// Internal. The value that a request gives.
pub fn given(tag: i64, integer_value: i64, real_value: i64, boolean_value: i64) -> Value {
    value::of_tag(tag, integer_value, float::bits(real_value), boolean_value)
}

// Internal. The tag is that of a real, and what is given for it is no float's pattern.
pub fn is_no_float(tag: i64, real_value: i64) -> bool {
    (tag == 2) & !float::is_pattern(real_value)
}
