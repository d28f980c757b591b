// KeyValue (message 16370; RULES 10.4).
ghost use Rattle.std.specs.Prelude.{◌≡◌};
ghost use Rattle.shape.specs.Answer as answer;
ghost use Rattle.shape.specs.Answer.{answer_of};
ghost use Rattle.shape.specs.Shape.{written};
ghost use Rattle.protocol_debug.specs.KeyValue.{key_value, key_in, key_value_in};

use bits::field;
use shape::answer::{Place, Refusal};
use shape::part;

// The value is the 32 bits of a float.
#[derive(Drop)]
pub struct KeyValue {
    pub value: u32,
    pub key: Place,
}

// The key, as a part of the payload: all after the value.
pub fn key(payload: &[u8]) -> &[u8]
    ensures { result.now ≡ key_in payload.now }
{
    part::behind(payload, 4)
}

// Reads a value and its key: 15 for a payload that ends too early, 16 for one that is too long.
pub fn decode(payload: &[u8]) -> Result<KeyValue, Refusal>
    ensures { answer_of result ≡ key_value_in payload.now }
{
    if payload.len() < 4 {
        return Err(Refusal::TooShort);
    }
    let len = key(payload).len();
    if 58 < len {
        return Err(Refusal::TooLong);
    }
    Ok(KeyValue {
        value: field::read(payload, 0, 32) as u32,
        key: Place { at: 4, len },
    })
}

// Writes a value and its key to the front of `out`: 17 for a key that is too long, then 8 for too little room.
pub fn encode(value: u32, key: &[u8], out: &mut [u8]) -> Result<usize, Refusal>
    ensures { (answer.answer_of result, out.new) ≡ written key_value (value, key.now) out.old }
{
    if 58 < key.len() {
        return Err(Refusal::NotAllowed);
    }
    let n = 4 + key.len();
    if out.len() < n {
        return Err(Refusal::NoRoom);
    }
    field::write(out, 0, 32, value as u64);
    field::write_bytes(out, 4, key);
    Ok(n)
}
