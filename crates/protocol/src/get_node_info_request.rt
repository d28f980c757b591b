// The request of GetNodeInfo (RULES 10.6): it holds nothing.
ghost use Rattle.std.specs.Prelude.{◌≡◌};
ghost use Rattle.shape.specs.Answer as answer;
ghost use Rattle.shape.specs.Answer.{answer_of};
ghost use Rattle.shape.specs.Shape.{written};
ghost use Rattle.protocol.specs.GetNodeInfoRequest.{request, request_in};

use shape::answer::Refusal;

// Reads a request: 16 for any byte.
pub fn decode(payload: &[u8]) -> Result<(), Refusal>
    ensures { answer_of result ≡ request_in payload.now }
{
    if 0 < payload.len() {
        return Err(Refusal::TooLong);
    }
    Ok(())
}

// No byte is written, and any buffer will do.
pub fn encode(out: &mut [u8]) -> Result<usize, Refusal>
    ensures { (answer.answer_of result, out.new) ≡ written request tt out.old }
{
    Ok(0)
}
