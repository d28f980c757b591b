// Allocation as a row of 4 (RULES 10.3).
ghost use Rattle.std.specs.Prelude.{◌≡◌, length};
ghost use Rattle.shape.specs.Answer.{map_answer};
ghost use Rattle.shape.specs.Shape.{decoded};
ghost use Rattle.protocol_dynamic_node_id.specs.Allocation.{allocation, allocation_of};
ghost use Rattle.row.specs.Row as form;
ghost use Rattle.message_fields.specs.Allocation.{allocation_words, allocation_in, allocation_made};

use super::as_row::{self, AsRow};
use protocol_dynamic_node_id::allocation;
use protocol_dynamic_node_id::allocation::Allocation;
use shape::answer::Refusal;

impl AsRow<4> for Allocation {
    ghost read = { λ p. map_answer allocation_of (decoded allocation p) };

    ghost words = { allocation_words };

    fn read(payload: &[u8]) -> Result<Allocation, Refusal> {
        allocation::decode(payload)
    }

    fn words(self) -> [u64; 4] {
        let u = self.unique_id;
        [
            row::word(self.node_id),
            row::word(self.first_part_of_unique_id),
            u.at as u64,
            u.len as u64,
        ]
    }
}

// Reads an allocation into a row: 15 and 16, then 8 for too few places.
pub fn decode(payload: &[u8], fields: &mut [u64]) -> u32
    ensures { (result, fields.new) ≡ form.row (allocation_in payload.now) fields.old }
{
    as_row::decode::<4, Allocation>(payload, fields)
}

// Writes the allocation of a row and a unique ID: 15 for a row that is too short, then 17 and 8.
pub fn encode(fields: &[u64], unique_id: &[u8], out: &mut [u8]) -> u64
    ensures { (result, out.new) ≡ form.message (allocation_made fields.now unique_id.now (length out.old)) out.old }
{
    if fields.len() < 4 {
        return 15;
    }
    row::of_written(allocation::encode(
        row::count(fields, 0),
        row::count(fields, 1),
        unique_id,
        out,
    ))
}
