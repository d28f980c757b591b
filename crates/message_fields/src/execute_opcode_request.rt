// ExecuteOpcode's request as a row of 2 (RULES 10.14).
ghost use Rattle.std.specs.Prelude.{◌≡◌, refl, length};
ghost use Rattle.shape.specs.Answer.{map_answer};
ghost use Rattle.shape.specs.Shape.{decoded, encoded};
ghost use Rattle.protocol_param.specs.ExecuteOpcode.{opcode_request, request_of, request_values};
ghost use Rattle.row.proofs.Lengths.{word_fits};
ghost use Rattle.row.specs.Row as form;
ghost use Rattle.message_fields.specs.ExecuteOpcode.{request_words, request_in, request_from, request_made};

use super::as_row::{self, AsRow, OfRow};
use protocol_param::execute_opcode_request;
use protocol_param::execute_opcode_request::Request;
use shape::answer::Refusal;

impl AsRow<2> for Request {
    ghost read = { λ p. map_answer request_of (decoded opcode_request p) };

    ghost words = { request_words };

    fn read(payload: &[u8]) -> Result<Request, Refusal> {
        execute_opcode_request::decode(payload)
    }

    fn words(self) -> [u64; 2] {
        [row::word(self.opcode), row::word(self.argument)]
    }
}

// Reads a request into a row: 15 and 16, then 8 for too few places.
pub fn decode(payload: &[u8], fields: &mut [u64]) -> u32
    ensures { (result, fields.new) ≡ form.row (request_in payload.now) fields.old }
{
    as_row::decode::<2, Request>(payload, fields)
}

impl OfRow<2> for Request {
    ghost of_row = { request_from };

    ghost write = { λ x. encoded opcode_request (request_values x) };

    ghost fits = { λ x. word_fits opcode_request refl (request_values x) };

    fn of_row(fields: &[u64]) -> Request {
        Request {
            opcode: row::count(fields, 0),
            argument: row::number(fields, 1),
        }
    }

    fn write(self, out: &mut [u8]) -> Result<usize, Refusal> {
        execute_opcode_request::encode(self, out)
    }
}

// Writes the request of a row: 15 for a row that is too short, then 8.
pub fn encode(fields: &[u64], out: &mut [u8]) -> u64
    ensures { (result, out.new) ≡ form.message (request_made fields.now (length out.old)) out.old }
{
    as_row::encode::<2, Request>(fields, out)
}
