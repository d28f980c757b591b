// GetSet's response (service 11; RULES 10.13). What it has in common with the request is in `value`.
ghost use Rattle.std.specs.Prelude.{◌≡◌, ◌+◌, ◌*◌, ◌≤◌, ◌<◌, length};
ghost use Rattle.bits.specs.Order.{store};
ghost use Rattle.shape.specs.Answer as answer;
ghost use Rattle.shape.specs.Answer.{numbered, answer_of};
ghost use Rattle.shape.specs.Shape.{decoded, written};
ghost use Rattle.protocol_param.specs.Value.{size_of, text_in};
ghost use Rattle.protocol_param.specs.inside.Value.{all_known, padded_bits, value_bits};
ghost use Rattle.protocol_param.specs.GetSetResponse.{response, response_values, default_at, max_at, min_at, name_at, default_text_in, name_in, response_in};

use super::value;
use super::value::Value;
use bits::{field, width};
use shape::answer::{Place, Refusal};
use shape::part;

#[derive(Clone, Copy)]
pub struct Response {
    pub value: Value,
    // of a value that is no text, empty
    pub string_value: Place,
    pub default_value: Value,
    pub default_string_value: Place,
    // NumericValue: empty, an integer or a real
    pub max_value: Value,
    pub min_value: Value,
    pub name: Place,
}

// Where the values after the first begin, and the name.
fn default_at(payload: &[u8]) -> usize
    ensures { result ≡ default_at payload.now }
{
    value::size(payload, 5)
}

// Each of the others from the one before it.
fn max_behind(payload: &[u8], default: usize) -> usize
    requires { default ≡ default_at payload.now }
    ensures { result ≡ max_at payload.now }
{
    default + value::size(part::behind(payload, default), 5)
}

fn min_behind(payload: &[u8], max: usize) -> usize
    requires { max ≡ max_at payload.now }
    ensures { result ≡ min_at payload.now }
{
    max + value::size(part::behind(payload, max), 3)
}

fn name_behind(payload: &[u8], min: usize) -> usize
    requires { min ≡ min_at payload.now }
    ensures { result ≡ name_at payload.now }
{
    min + value::size(part::behind(payload, min), 3)
}

fn name_at(payload: &[u8]) -> usize
    ensures { result ≡ name_at payload.now }
{
    let max = max_behind(payload, default_at(payload));
    name_behind(payload, min_behind(payload, max))
}

// The text of the value, as a part of the payload; nothing if the value is no text.
pub fn string_value(payload: &[u8]) -> &[u8]
    ensures { result.now ≡ text_in payload.now }
{
    value::text(payload)
}

// The same of the default value.
pub fn default_string_value(payload: &[u8]) -> &[u8]
    ensures { result.now ≡ default_text_in payload.now }
{
    value::text(part::behind(payload, default_at(payload)))
}

// The name, as a part of the payload: all after the values.
pub fn name(payload: &[u8]) -> &[u8]
    ensures { result.now ≡ name_in payload.now }
{
    part::behind(payload, name_at(payload))
}

// What the payload is refused for.
fn refusal(payload: &[u8]) -> Result<(), Refusal>
    ensures { (answer_of result).number ≡ (numbered (decoded response payload.now)).number }
{
    value::refusal(payload, 5)?;
    let default = default_at(payload);
    value::refusal(part::behind(payload, default), 5)?;
    let max = max_behind(payload, default);
    value::refusal(part::behind(payload, max), 3)?;
    let min = min_behind(payload, max);
    value::refusal(part::behind(payload, min), 3)?;
    if 92 < part::behind(payload, name_behind(payload, min)).len() {
        return Err(Refusal::TooLong);
    }
    Ok(())
}

// Reads a response: 15 for a payload that ends too early, 27 for a tag that no case has, 16 for a list that is too long.
pub fn decode(payload: &[u8]) -> Result<Response, Refusal>
    ensures { answer_of result ≡ response_in payload.now }
{
    refusal(payload)?;
    let at = default_at(payload);
    let max = max_behind(payload, at);
    let min = min_behind(payload, max);
    let name_at = name_behind(payload, min);
    Ok(Response {
        value: value::read(payload, 5),
        string_value: Place {
            at: 2,
            len: string_value(payload).len(),
        },
        default_value: value::read(part::behind(payload, at), 5),
        default_string_value: Place {
            at: at + 2,
            len: default_string_value(payload).len(),
        },
        max_value: value::read(part::behind(payload, max), 3),
        min_value: value::read(part::behind(payload, min), 3),
        name: Place {
            at: name_at,
            len: part::behind(payload, name_at).len(),
        },
    })
}

// Every value is of a case that its field has.
fn known(v: Value, default_value: Value, max_value: Value, min_value: Value) -> bool
    ensures { result ≡ all_known v default_value max_value min_value }
{
    if !value::known(v, 5) {
        return false;
    }
    if !value::known(default_value, 5) {
        return false;
    }
    if !value::known(max_value, 3) {
        return false;
    }
    value::known(min_value, 3)
}

// Padding and a value, from byte `at` on; where the next byte is.
fn put(out: &mut [u8], at: usize, cases: u64, v: Value, text: &[u8]) -> usize
    requires { ((2 ≤ cases) × (cases ≤ 5)) × ((at < 65535) × (at + size_of v (length text.now) ≤ length out.old)) }
    ensures { (result ≡ at + size_of v (length text.now)) × (out.new ≡ store out.old (at * 8) (padded_bits cases v text.now)) }
{
    let w = width::width(cases - 1) as usize;
    field::write(out, at * 8, 8 - w, 0);
    value::write(out, at, cases, v, text);
    at + value::written_size(v, text)
}

// The bytes of the values, of texts that fit.
fn values_size(
    v: Value,
    string_value: &[u8],
    default_value: Value,
    default_string_value: &[u8],
    max_value: Value,
    min_value: Value,
) -> usize
    requires { (size_of v (length string_value.now) ≤ 130) × (size_of default_value (length default_string_value.now) ≤ 130) }
    ensures { result ≡ size_of v (length string_value.now) + size_of default_value (length default_string_value.now) + size_of max_value 0 + size_of min_value 0 }
{
    let none = &string_value[0..0];
    value::written_size(v, string_value)
        + value::written_size(default_value, default_string_value)
        + value::written_size(max_value, none)
        + value::written_size(min_value, none)
}

// The values from the front.
fn put_values(
    out: &mut [u8],
    v: Value,
    string_value: &[u8],
    default_value: Value,
    default_string_value: &[u8],
    max_value: Value,
    min_value: Value,
)
    requires { ((size_of v (length string_value.now) ≤ 130) × (size_of default_value (length default_string_value.now) ≤ 130)) × (size_of v (length string_value.now) + size_of default_value (length default_string_value.now) + size_of max_value 0 + size_of min_value 0 ≤ length out.old) }
    ensures { out.new ≡ store out.old 0 (value_bits v string_value.now default_value default_string_value.now max_value min_value) }
{
    let none = &string_value[0..0];
    let a = put(out, 0, 5, v, string_value);
    let b = put(out, a, 5, default_value, default_string_value);
    let c = put(out, b, 3, max_value, none);
    put(out, c, 3, min_value, none);
}

// Writes a response to the front of `out`, numbers saturated: 27 for a value of no case, then 17 for a list that is too long, then 8 for too
// little room. A text is written if the value beside it is one, and else not looked at.
pub fn encode(
    v: Value,
    string_value: &[u8],
    default_value: Value,
    default_string_value: &[u8],
    max_value: Value,
    min_value: Value,
    name: &[u8],
    out: &mut [u8],
) -> Result<usize, Refusal>
    ensures { (answer.answer_of result, out.new) ≡ written response (response_values v string_value.now default_value default_string_value.now max_value min_value name.now) out.old }
{
    let all_known = known(v, default_value, max_value, min_value);
    let texts = value::fits(v, string_value) & value::fits(default_value, default_string_value);
    let fits = texts & (name.len() <= 92);
    if !all_known {
        return Err(Refusal::NoCase);
    }
    if !fits {
        return Err(Refusal::NotAllowed);
    }
    let at = values_size(
        v,
        string_value,
        default_value,
        default_string_value,
        max_value,
        min_value,
    );
    let n = at + name.len();
    if out.len() < n {
        return Err(Refusal::NoRoom);
    }
    put_values(
        out,
        v,
        string_value,
        default_value,
        default_string_value,
        max_value,
        min_value,
    );
    field::write_bytes(out, at, name);
    Ok(n)
}
