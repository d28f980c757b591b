// GetSet's request as a row of 7 (RULES 10.12).
ghost use Rattle.std.specs.Prelude.{◌≡◌, length};
ghost use Rattle.shape.specs.Answer.{map_answer};
ghost use Rattle.shape.specs.Shape.{decoded};
ghost use Rattle.protocol_param.specs.GetSetRequest.{request, request_of};
ghost use Rattle.row.specs.Row as form;
ghost use Rattle.message_fields.specs.GetSet.{request_words, request_in, request_made};

use super::as_row::{self, AsRow};
use super::param_value;
use protocol_param::get_set_request;
use protocol_param::get_set_request::Request;
use shape::answer::Refusal;

impl AsRow<7> for Request {
    ghost read = { λ p. map_answer request_of (decoded request p) };

    ghost words = { request_words };

    fn read(payload: &[u8]) -> Result<Request, Refusal> {
        get_set_request::decode(payload)
    }

    fn words(self) -> [u64; 7] {
        let value = self.value;
        let v = param_value::words(value);
        let s = self.string_value;
        let n = self.name;
        [
            row::word(self.index),
            v[0],
            v[1],
            s.at as u64,
            s.len as u64,
            n.at as u64,
            n.len as u64,
        ]
    }
}

// Reads a request into a row: 15, 27 and 16, then 8 for too few places.
pub fn decode(payload: &[u8], fields: &mut [u64]) -> u32
    ensures { (result, fields.new) ≡ form.row (request_in payload.now) fields.old }
{
    as_row::decode::<7, Request>(payload, fields)
}

// Writes the request of a row and two lists: 15 for a row that is too short, then 27, 17 and 8. A real that is no float answers 17: its tag
// is one that a case has.
pub fn encode(fields: &[u64], string_value: &[u8], name: &[u8], out: &mut [u8]) -> u64
    ensures { (result, out.new) ≡ form.message (request_made fields.now string_value.now name.now (length out.old)) out.old }
{
    if fields.len() < 7 {
        return 15;
    }
    if param_value::is_too_large(fields, 1) {
        return 17;
    }
    let v = param_value::from(fields, 1);
    row::of_written(get_set_request::encode(row::count(fields, 0), v, string_value, name, out))
}
