// NodeStatus (message 341; RULES 10.2).
ghost use Rattle.std.specs.Prelude.{◌≡◌, ◌≤◌, length};
ghost use Rattle.bits.specs.Order.{unpack, store};
ghost use Rattle.shape.specs.Answer as answer;
ghost use Rattle.shape.specs.Answer.{answer_of};
ghost use Rattle.shape.specs.Shape as shape;
ghost use Rattle.shape.specs.Shape.{end, written};
ghost use Rattle.protocol.specs.NodeStatus.{node_status, status_values, status_in, status_at};

use bits::field;
use shape::answer::Refusal;
use shape::number;

// Sub-mode is read as zero, and any value given is written as zero (RULES 9.8).
#[derive(Drop)]
pub struct NodeStatus {
    pub uptime_sec: i64,
    pub health: i64,
    pub mode: i64,
    pub sub_mode: i64,
    pub vendor_specific_status_code: i64,
}

// Internal. The status in the first seven bytes.
pub fn read_front(s: &[u8]) -> NodeStatus
    requires { 7 ≤ length s.now }
    ensures { result ≡ status_at (unpack s.now) }
{
    NodeStatus {
        uptime_sec: number::read(s, 0, 32),
        health: number::read(s, 32, 2),
        mode: number::read(s, 34, 3),
        sub_mode: 0,
        vendor_specific_status_code: number::read(s, 40, 16),
    }
}

// Reads a status: 15 for a payload that ends too early, 16 for one that is too long.
pub fn decode(payload: &[u8]) -> Result<NodeStatus, Refusal>
    ensures { answer_of result ≡ status_in payload.now }
{
    let n = payload.len();
    if n < 7 {
        return Err(Refusal::TooShort);
    }
    if 7 < n {
        return Err(Refusal::TooLong);
    }
    Ok(read_front(payload))
}

// Internal. The 56 bits of a status, from the front.
pub fn write_front(out: &mut [u8], x: NodeStatus)
    requires { 7 ≤ length out.old }
    ensures { out.new ≡ store out.old 0 (shape.encode node_status (status_values x end tt)) }
{
    number::write(out, 0, 32, x.uptime_sec);
    number::write(out, 32, 2, x.health);
    number::write(out, 34, 3, x.mode);
    field::write(out, 37, 3, 0);
    number::write(out, 40, 16, x.vendor_specific_status_code);
}

// Writes a status to the front of `out`, numbers saturated: 8 for too little room.
pub fn encode(x: NodeStatus, out: &mut [u8]) -> Result<usize, Refusal>
    ensures { (answer.answer_of result, out.new) ≡ written node_status (status_values x end tt) out.old }
{
    if out.len() < 7 {
        return Err(Refusal::NoRoom);
    }
    write_front(out, x);
    Ok(7)
}
