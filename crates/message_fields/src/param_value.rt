// The value of a parameter in a row (RULES 10.11): its tag and its number.
ghost use Rattle.std.specs.Prelude.{◌≡◌, false, ◌+◌, ◌<◌, length};
ghost use Rattle.message_fields.specs.GetSet.{value_words, value_from};
ghost use Rattle.message_fields.specs.inside.Value.{too_large};

use protocol_param::value;
use protocol_param::value::Value;

// Internal. Its two words.
pub fn words(v: Value) -> [u64; 2]
    ensures { result ≡ value_words v }
{
    match v {
        Value::Empty => [0, 0],
        Value::Integer(z) => [1, row::word(z)],
        Value::Real(x) => [2, x as u64],
        Value::Boolean(z) => [3, row::word(z)],
        Value::Text => [4, 0],
        Value::Unknown => [5, 0],
    }
}

// Internal. A real that is no float, from the i-th word on.
pub fn is_too_large(fields: &[u64], i: usize) -> bool
    requires { i + 1 < length fields.now }
    ensures { result ≡ too_large fields.now i }
{
    if fields[i] != 2 {
        return false;
    }
    0xFFFFFFFF < fields[i + 1]
}

// Internal. The value from the i-th word on, unless it is such a real.
pub fn from(fields: &[u64], i: usize) -> Value
    requires { (i + 1 < length fields.now) × (too_large fields.now i ≡ false) }
    ensures { result ≡ value_from fields.now i }
{
    value::of_tag(
        row::count(fields, i),
        row::number(fields, i + 1),
        (fields[i + 1] % 0x100000000) as u32,
        row::count(fields, i + 1),
    )
}
