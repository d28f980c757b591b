// RawCommand as a row of 21, its count and 20 numbers (RULES 10.10).
ghost use Rattle.std.specs.Prelude.{◌≡◌, length};
ghost use Rattle.equipment_esc.specs.RawCommand.{command_in, command_encoded};
ghost use Rattle.message_fields.specs.inside.Commands.{command-fits};
ghost use Rattle.row.specs.Row as form;
ghost use Rattle.message_fields.specs.RawCommand.{command_words, commands_in, command_from, commands_made};

use super::as_row::{self, AsRow, OfRow};
use equipment_esc::raw_command;
use equipment_esc::raw_command::RawCommand;
use shape::answer::Refusal;

impl AsRow<21> for RawCommand {
    ghost read = { command_in };

    ghost words = { command_words };

    fn read(payload: &[u8]) -> Result<RawCommand, Refusal> {
        raw_command::decode(payload)
    }

    fn words(self) -> [u64; 21] {
        let cmd = self.cmd;
        let mut w = [0u64; 21];
        w[0] = self.count as u64;
        for i in 0..20 {
            let v = cmd[i];
            w[i + 1] = row::word(v);
        }
        w
    }
}

// Reads commands into a row: 16 and 25, then 8 for too few places.
pub fn decode(payload: &[u8], fields: &mut [u64]) -> u32
    ensures { (result, fields.new) ≡ form.row (commands_in payload.now) fields.old }
{
    as_row::decode::<21, RawCommand>(payload, fields)
}

impl OfRow<21> for RawCommand {
    ghost of_row = { command_from };

    ghost write = { command_encoded };

    ghost fits = { command-fits };

    fn of_row(fields: &[u64]) -> RawCommand {
        let mut cmd = [0i64; 20];
        for i in 0..20 {
            cmd[i] = row::number(fields, i + 1);
        }
        RawCommand {
            count: fields[0] as usize,
            cmd,
        }
    }

    fn write(self, out: &mut [u8]) -> Result<usize, Refusal> {
        raw_command::encode(self, out)
    }
}

// Writes the commands of a row: 15 for a row that is too short, then 17 for more than 20, and 8.
pub fn encode(fields: &[u64], out: &mut [u8]) -> u64
    ensures { (result, out.new) ≡ form.message (commands_made fields.now (length out.old)) out.old }
{
    as_row::encode::<21, RawCommand>(fields, out)
}
