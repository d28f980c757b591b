// NodeStatus as a row of 5 (RULES 10.2).
ghost use Rattle.std.specs.Prelude.{◌≡◌, refl, length};
ghost use Rattle.shape.specs.Answer.{map_answer};
ghost use Rattle.shape.specs.Shape.{end, decoded, encoded};
ghost use Rattle.protocol.specs.NodeStatus.{node_status, status_of, status_values};
ghost use Rattle.row.proofs.Lengths.{word_fits};
ghost use Rattle.row.specs.Row as form;
ghost use Rattle.message_fields.specs.NodeStatus.{status_words, status_from, status_in, status_made};

use super::as_row::{self, AsRow, OfRow};
use protocol::node_status;
use protocol::node_status::NodeStatus;
use shape::answer::Refusal;

impl AsRow<5> for NodeStatus {
    ghost read = { λ p. map_answer (status_of end) (decoded node_status p) };

    ghost words = { status_words };

    fn read(payload: &[u8]) -> Result<NodeStatus, Refusal> {
        node_status::decode(payload)
    }

    fn words(self) -> [u64; 5] {
        [
            row::word(self.uptime_sec),
            row::word(self.health),
            row::word(self.mode),
            row::word(self.sub_mode),
            row::word(self.vendor_specific_status_code),
        ]
    }
}

// Reads a status into a row: 15 and 16, then 8 for too few places.
pub fn decode(payload: &[u8], fields: &mut [u64]) -> u32
    ensures { (result, fields.new) ≡ form.row (status_in payload.now) fields.old }
{
    as_row::decode::<5, NodeStatus>(payload, fields)
}

impl OfRow<5> for NodeStatus {
    ghost of_row = { status_from };

    ghost write = { λ x. encoded node_status (status_values x end tt) };

    ghost fits = { λ x. word_fits node_status refl (status_values x end tt) };

    fn of_row(fields: &[u64]) -> NodeStatus {
        NodeStatus {
            uptime_sec: row::count(fields, 0),
            health: row::count(fields, 1),
            mode: row::count(fields, 2),
            sub_mode: row::count(fields, 3),
            vendor_specific_status_code: row::count(fields, 4),
        }
    }

    fn write(self, out: &mut [u8]) -> Result<usize, Refusal> {
        node_status::encode(self, out)
    }
}

// Writes the status of a row: 15 for a row that is too short, then 8.
pub fn encode(fields: &[u64], out: &mut [u8]) -> u64
    ensures { (result, out.new) ≡ form.message (status_made fields.now (length out.old)) out.old }
{
    as_row::encode::<5, NodeStatus>(fields, out)
}
