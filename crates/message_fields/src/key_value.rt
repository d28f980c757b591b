// KeyValue as a row of 3 (RULES 10.4).
ghost use Rattle.std.specs.Prelude.{◌≡◌, length};
ghost use Rattle.shape.specs.Answer.{map_answer};
ghost use Rattle.shape.specs.Shape.{decoded};
ghost use Rattle.protocol_debug.specs.KeyValue.{key_value, key_value_of};
ghost use Rattle.row.specs.Row as form;
ghost use Rattle.message_fields.specs.KeyValue.{key_value_words, key_value_in, key_value_made};

use super::as_row::{self, AsRow};
use protocol_debug::key_value;
use protocol_debug::key_value::KeyValue;
use shape::answer::Refusal;

impl AsRow<3> for KeyValue {
    ghost read = { λ p. map_answer key_value_of (decoded key_value p) };

    ghost words = { key_value_words };

    fn read(payload: &[u8]) -> Result<KeyValue, Refusal> {
        key_value::decode(payload)
    }

    fn words(self) -> [u64; 3] {
        let k = self.key;
        [self.value as u64, k.at as u64, k.len as u64]
    }
}

// Reads a value and its key into a row: 15 and 16, then 8 for too few places.
pub fn decode(payload: &[u8], fields: &mut [u64]) -> u32
    ensures { (result, fields.new) ≡ form.row (key_value_in payload.now) fields.old }
{
    as_row::decode::<3, KeyValue>(payload, fields)
}

// Writes the value of a row and a key: 15 for a row that is too short, then 17, also for what is no float, and 8.
pub fn encode(fields: &[u64], key: &[u8], out: &mut [u8]) -> u64
    ensures { (result, out.new) ≡ form.message (key_value_made fields.now key.now (length out.old)) out.old }
{
    if fields.len() < 3 {
        return 15;
    }
    let x = fields[0];
    if 0xFFFFFFFF < x {
        return 17;
    }
    row::of_written(key_value::encode(x as u32, key, out))
}
