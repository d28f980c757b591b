// Allocation (message 1; RULES 10.3).
ghost use Rattle.std.specs.Prelude.{◌≡◌};
ghost use Rattle.shape.specs.Answer as answer;
ghost use Rattle.shape.specs.Answer.{answer_of};
ghost use Rattle.shape.specs.Shape.{written};
ghost use Rattle.protocol_dynamic_node_id.specs.Allocation.{allocation, unique_id_in, allocation_in};

use bits::field;
use shape::answer::{Place, Refusal};
use shape::{number, part};

#[derive(Drop)]
pub struct Allocation {
    pub node_id: i64,
    pub first_part_of_unique_id: i64,
    pub unique_id: Place,
}

// The unique ID, as a part of the payload: all after the first byte.
pub fn unique_id(payload: &[u8]) -> &[u8]
    ensures { result.now ≡ unique_id_in payload.now }
{
    part::behind(payload, 1)
}

// Reads an allocation: 15 for a payload that ends too early, 16 for one that is too long.
pub fn decode(payload: &[u8]) -> Result<Allocation, Refusal>
    ensures { answer_of result ≡ allocation_in payload.now }
{
    if payload.len() < 1 {
        return Err(Refusal::TooShort);
    }
    let len = unique_id(payload).len();
    if 16 < len {
        return Err(Refusal::TooLong);
    }
    Ok(Allocation {
        node_id: number::read(payload, 0, 7),
        first_part_of_unique_id: number::read(payload, 7, 1),
        unique_id: Place { at: 1, len },
    })
}

// Writes an allocation to the front of `out`, numbers saturated: 17 for a unique ID that is too long, then 8 for too little room.
pub fn encode(
    node_id: i64,
    first_part_of_unique_id: i64,
    unique_id: &[u8],
    out: &mut [u8],
) -> Result<usize, Refusal>
    ensures { (answer.answer_of result, out.new) ≡ written allocation (node_id, (first_part_of_unique_id, unique_id.now)) out.old }
{
    if 16 < unique_id.len() {
        return Err(Refusal::NotAllowed);
    }
    let n = 1 + unique_id.len();
    if out.len() < n {
        return Err(Refusal::NoRoom);
    }
    number::write(out, 0, 7, node_id);
    number::write(out, 7, 1, first_part_of_unique_id);
    field::write_bytes(out, 1, unique_id);
    Ok(n)
}
