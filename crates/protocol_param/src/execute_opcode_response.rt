// ExecuteOpcode's response (service 10; RULES 10.15). Nothing in common with the request's code: other fields, and bits left over.
ghost use Rattle.std.specs.Prelude.{◌≡◌};
ghost use Rattle.shape.specs.Answer as answer;
ghost use Rattle.shape.specs.Answer.{answer_of};
ghost use Rattle.shape.specs.Shape.{written};
ghost use Rattle.protocol_param.specs.ExecuteOpcode.{opcode_response, response_values, response_in};

use shape::answer::Refusal;
use shape::{items, last, number};

#[derive(Clone, Copy)]
pub struct Response {
    pub argument: i64,
    pub ok: i64,
}

// Reads a response: 15 for a payload that is too short, 16 for one that is too long, 25 for bits left over that are not zero.
pub fn decode(payload: &[u8]) -> Result<Response, Refusal>
    ensures { answer_of result ≡ response_in payload.now }
{
    if payload.len() < 7 {
        return Err(Refusal::TooShort);
    }
    last::refusal(payload, 49)?;
    Ok(Response {
        argument: number::read_signed(payload, 0, 48),
        ok: number::read(payload, 48, 1),
    })
}

// Writes a response to the front of `out`, numbers saturated and the bits left over zero: 8 for too little room.
pub fn encode(x: Response, out: &mut [u8]) -> Result<usize, Refusal>
    ensures { (answer.answer_of result, out.new) ≡ written opcode_response (response_values x) out.old }
{
    if out.len() < 7 {
        return Err(Refusal::NoRoom);
    }
    number::write_signed(out, 0, 48, x.argument);
    number::write(out, 48, 1, x.ok);
    items::pad(out, 49);
    Ok(7)
}
