// GetSet's response as a row of 14 (RULES 10.13).
ghost use Rattle.std.specs.Prelude.{◌≡◌, ◌≤◌, length};
ghost use Rattle.shape.specs.Answer.{map_answer};
ghost use Rattle.shape.specs.Shape.{decoded};
ghost use Rattle.protocol_param.specs.GetSetResponse.{response, response_of};
ghost use Rattle.row.specs.Row as form;
ghost use Rattle.message_fields.specs.GetSet.{response_words, response_in, response_made};
ghost use Rattle.message_fields.specs.inside.Value.{any_too_large, all_known};

use super::as_row::{self, AsRow};
use super::param_value;
use protocol_param::get_set_response;
use protocol_param::get_set_response::Response;
use shape::answer::Refusal;

impl AsRow<14> for Response {
    ghost read = { λ p. map_answer response_of (decoded response p) };

    ghost words = { response_words };

    fn read(payload: &[u8]) -> Result<Response, Refusal> {
        get_set_response::decode(payload)
    }

    fn words(self) -> [u64; 14] {
        let value = self.value;
        let default_value = self.default_value;
        let max_value = self.max_value;
        let min_value = self.min_value;
        let v = param_value::words(value);
        let s = self.string_value;
        let d = param_value::words(default_value);
        let t = self.default_string_value;
        let max = param_value::words(max_value);
        let min = param_value::words(min_value);
        let n = self.name;
        [
            v[0],
            v[1],
            s.at as u64,
            s.len as u64,
            d[0],
            d[1],
            t.at as u64,
            t.len as u64,
            max[0],
            max[1],
            min[0],
            min[1],
            n.at as u64,
            n.len as u64,
        ]
    }
}

// Reads a response into a row: 15, 27 and 16, then 8 for too few places.
pub fn decode(payload: &[u8], fields: &mut [u64]) -> u32
    ensures { (result, fields.new) ≡ form.row (response_in payload.now) fields.old }
{
    as_row::decode::<14, Response>(payload, fields)
}

// Any of the four values is a real that is no float.
fn is_too_large(fields: &[u64]) -> bool
    requires { 14 ≤ length fields.now }
    ensures { result ≡ any_too_large fields.now }
{
    let values = param_value::is_too_large(fields, 0) | param_value::is_too_large(fields, 4);
    let bounds = param_value::is_too_large(fields, 8) | param_value::is_too_large(fields, 10);
    values | bounds
}

// Each of the four tags is one that a case has.
fn known(fields: &[u64]) -> bool
    requires { 14 ≤ length fields.now }
    ensures { result ≡ all_known fields.now }
{
    let bounds = (fields[8] < 3) & (fields[10] < 3);
    let others = (fields[4] < 5) & bounds;
    (fields[0] < 5) & others
}

// Writes the response of a row and three lists: 15 for a row that is too short, then 27, 17, also for a real that is no float, and 8.
pub fn encode(
    fields: &[u64],
    string_value: &[u8],
    default_string_value: &[u8],
    name: &[u8],
    out: &mut [u8],
) -> u64
    ensures { (result, out.new) ≡ form.message (response_made fields.now string_value.now default_string_value.now name.now (length out.old)) out.old }
{
    if fields.len() < 14 {
        return 15;
    }
    if is_too_large(fields) {
        if known(fields) {
            return 17;
        }
        return 27;
    }
    let v = param_value::from(fields, 0);
    let d = param_value::from(fields, 4);
    let max = param_value::from(fields, 8);
    let min = param_value::from(fields, 10);
    row::of_written(get_set_response::encode(
        v,
        string_value,
        d,
        default_string_value,
        max,
        min,
        name,
        out,
    ))
}
