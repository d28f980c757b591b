// ExecuteOpcode's request by hand.
use super::numbers::Numbers;
use protocol_param::execute_opcode_request;
use protocol_param::execute_opcode_request::Request;
use shape::answer::Refusal;

impl Numbers<2> for Request {
    const NAMES: &'static [u8] = b"opcode argument";

    fn read(payload: &[u8]) -> Result<Request, Refusal> {
        execute_opcode_request::decode(payload)
    }

    fn numbers(self) -> [i64; 2] {
        [self.opcode, self.argument]
    }

    fn of_numbers(v: [i64; 2]) -> Request {
        Request {
            opcode: v[0],
            argument: v[1],
        }
    }

    fn write(self, out: &mut [u8]) -> Result<usize, Refusal> {
        execute_opcode_request::encode(self, out)
    }
}
