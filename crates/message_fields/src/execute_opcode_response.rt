// ExecuteOpcode's response as a row of 2 (RULES 10.15).
ghost use Rattle.std.specs.Prelude.{◌≡◌, refl, length};
ghost use Rattle.shape.specs.Answer.{map_answer};
ghost use Rattle.shape.specs.Shape.{decoded, encoded};
ghost use Rattle.protocol_param.specs.ExecuteOpcode.{opcode_response, response_of, response_values};
ghost use Rattle.row.proofs.Lengths.{word_fits};
ghost use Rattle.row.specs.Row as form;
ghost use Rattle.message_fields.specs.ExecuteOpcode.{response_words, response_in, response_from, response_made};

use super::as_row::{self, AsRow, OfRow};
use protocol_param::execute_opcode_response;
use protocol_param::execute_opcode_response::Response;
use shape::answer::Refusal;

impl AsRow<2> for Response {
    ghost read = { λ p. map_answer response_of (decoded opcode_response p) };

    ghost words = { response_words };

    fn read(payload: &[u8]) -> Result<Response, Refusal> {
        execute_opcode_response::decode(payload)
    }

    fn words(self) -> [u64; 2] {
        [row::word(self.argument), row::word(self.ok)]
    }
}

// Reads a response into a row: 15, 16 and 25, then 8 for too few places.
pub fn decode(payload: &[u8], fields: &mut [u64]) -> u32
    ensures { (result, fields.new) ≡ form.row (response_in payload.now) fields.old }
{
    as_row::decode::<2, Response>(payload, fields)
}

impl OfRow<2> for Response {
    ghost of_row = { response_from };

    ghost write = { λ x. encoded opcode_response (response_values x) };

    ghost fits = { λ x. word_fits opcode_response refl (response_values x) };

    // Nothing in common with the request's: other fields, the signed one first.
    fn of_row(fields: &[u64]) -> Response {
        Response {
            argument: row::number(fields, 0),
            ok: row::count(fields, 1),
        }
    }

    fn write(self, out: &mut [u8]) -> Result<usize, Refusal> {
        execute_opcode_response::encode(self, out)
    }
}

// Writes the response of a row: 15 for a row that is too short, then 8.
pub fn encode(fields: &[u64], out: &mut [u8]) -> u64
    ensures { (result, out.new) ≡ form.message (response_made fields.now (length out.old)) out.old }
{
    as_row::encode::<2, Response>(fields, out)
}
