// GetSet's request (service 11; RULES 10.12).
ghost use Rattle.std.specs.Prelude.{◌≡◌};
ghost use Rattle.shape.specs.Answer as answer;
ghost use Rattle.shape.specs.Answer.{answer_of};
ghost use Rattle.shape.specs.Shape.{written};
ghost use Rattle.protocol_param.specs.Value.{value_values};
ghost use Rattle.protocol_param.specs.GetSetRequest.{name_only, request, request_text_in, request_name_at, request_name_in, request_in};

use super::value;
use super::value::Value;
use bits::field;
use shape::answer::{Place, Refusal};
use shape::{number, part};

#[derive(Drop)]
pub struct Request {
    pub index: i64,
    pub value: Value,
    // of a value that is no text, empty
    pub string_value: Place,
    pub name: Place,
}

// Where the name begins: after the value, whose tag is in the second byte.
fn name_at(payload: &[u8]) -> usize
    ensures { result ≡ request_name_at payload.now }
{
    1 + value::size(part::behind(payload, 1), 5)
}

// The text of the value, as a part of the payload; nothing if the value is no text.
pub fn string_value(payload: &[u8]) -> &[u8]
    ensures { result.now ≡ request_text_in payload.now }
{
    value::text(part::behind(payload, 1))
}

// The name, as a part of the payload: all after the value.
pub fn name(payload: &[u8]) -> &[u8]
    ensures { result.now ≡ request_name_in payload.now }
{
    part::behind(payload, name_at(payload))
}

// Reads a request: 15 for a payload that ends too early, 27 for a tag that no case has, 16 for a list that is too long.
pub fn decode(payload: &[u8]) -> Result<Request, Refusal>
    ensures { answer_of result ≡ request_in payload.now }
{
    value::refusal(part::behind(payload, 1), 5)?;
    let name_at = name_at(payload);
    let name = part::behind(payload, name_at);
    if 92 < name.len() {
        return Err(Refusal::TooLong);
    }
    Ok(Request {
        index: number::read(payload, 0, 13),
        value: value::read(part::behind(payload, 1), 5),
        string_value: Place {
            at: 3,
            len: string_value(payload).len(),
        },
        name: Place {
            at: name_at,
            len: name.len(),
        },
    })
}

// Writes a request to the front of `out`, numbers saturated: 27 for a value of no case, then 17 for a list that is too long, then 8 for too
// little room. The text is written if the value is one, and else not looked at.
pub fn encode(
    index: i64,
    v: Value,
    string_value: &[u8],
    name: &[u8],
    out: &mut [u8],
) -> Result<usize, Refusal>
    ensures { (answer.answer_of result, out.new) ≡ written request (index, value_values v string_value.now 5 name_only name.now) out.old }
{
    let known = value::known(v, 5);
    let fits = value::fits(v, string_value) & (name.len() <= 92);
    if !known {
        return Err(Refusal::NoCase);
    }
    if !fits {
        return Err(Refusal::NotAllowed);
    }
    let at = 1 + value::written_size(v, string_value);
    let n = at + name.len();
    if out.len() < n {
        return Err(Refusal::NoRoom);
    }
    number::write(out, 0, 13, index);
    value::write(out, 1, 5, v, string_value);
    field::write_bytes(out, at, name);
    Ok(n)
}
