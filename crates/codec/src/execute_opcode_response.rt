// ExecuteOpcode's response by hand.
use super::numbers::Numbers;
use protocol_param::execute_opcode_response;
use protocol_param::execute_opcode_response::Response;
use shape::answer::Refusal;

impl Numbers<2> for Response {
    const NAMES: &'static [u8] = b"argument ok";

    fn read(payload: &[u8]) -> Result<Response, Refusal> {
        execute_opcode_response::decode(payload)
    }

    fn numbers(self) -> [i64; 2] {
        [self.argument, self.ok]
    }

    fn of_numbers(v: [i64; 2]) -> Response {
        Response {
            argument: v[0],
            ok: v[1],
        }
    }

    fn write(self, out: &mut [u8]) -> Result<usize, Refusal> {
        execute_opcode_response::encode(self, out)
    }
}
