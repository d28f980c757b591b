// ExecuteOpcode's request (service 10; RULES 10.14).
ghost use Rattle.std.specs.Prelude.{◌≡◌};
ghost use Rattle.shape.specs.Answer as answer;
ghost use Rattle.shape.specs.Answer.{answer_of};
ghost use Rattle.shape.specs.Shape.{written};
ghost use Rattle.protocol_param.specs.ExecuteOpcode.{opcode_request, request_values, request_in};

use shape::answer::Refusal;
use shape::number;

#[derive(Drop)]
pub struct Request {
    pub opcode: i64,
    pub argument: i64,
}

// Reads a request: 15 for a payload that is too short, 16 for one that is too long.
pub fn decode(payload: &[u8]) -> Result<Request, Refusal>
    ensures { answer_of result ≡ request_in payload.now }
{
    if payload.len() < 7 {
        return Err(Refusal::TooShort);
    }
    if 7 < payload.len() {
        return Err(Refusal::TooLong);
    }
    Ok(Request {
        opcode: number::read(payload, 0, 8),
        argument: number::read_signed(payload, 8, 48),
    })
}

// Writes a request to the front of `out`, numbers saturated: 8 for too little room.
pub fn encode(x: Request, out: &mut [u8]) -> Result<usize, Refusal>
    ensures { (answer.answer_of result, out.new) ≡ written opcode_request (request_values x) out.old }
{
    if out.len() < 7 {
        return Err(Refusal::NoRoom);
    }
    number::write(out, 0, 8, x.opcode);
    number::write_signed(out, 8, 48, x.argument);
    Ok(7)
}
