// LogMessage as a row of 5 (RULES 10.5).
ghost use Rattle.std.specs.Prelude.{◌≡◌, length};
ghost use Rattle.shape.specs.Answer.{map_answer};
ghost use Rattle.shape.specs.Shape.{decoded};
ghost use Rattle.protocol_debug.specs.LogMessage.{log_message, log_message_of};
ghost use Rattle.row.specs.Row as form;
ghost use Rattle.message_fields.specs.LogMessage.{log_message_words, log_message_in, log_message_made};

use super::as_row::{self, AsRow};
use protocol_debug::log_message;
use protocol_debug::log_message::LogMessage;
use shape::answer::Refusal;

impl AsRow<5> for LogMessage {
    ghost read = { λ p. map_answer log_message_of (decoded log_message p) };

    ghost words = { log_message_words };

    fn read(payload: &[u8]) -> Result<LogMessage, Refusal> {
        log_message::decode(payload)
    }

    fn words(self) -> [u64; 5] {
        let s = self.source;
        let t = self.text;
        [
            row::word(self.level),
            s.at as u64,
            s.len as u64,
            t.at as u64,
            t.len as u64,
        ]
    }
}

// Reads a log message into a row: 15 and 16, then 8 for too few places.
pub fn decode(payload: &[u8], fields: &mut [u64]) -> u32
    ensures { (result, fields.new) ≡ form.row (log_message_in payload.now) fields.old }
{
    as_row::decode::<5, LogMessage>(payload, fields)
}

// Writes the log message of a row and two lists: 15 for a row that is too short, then 17 and 8.
pub fn encode(fields: &[u64], source: &[u8], text: &[u8], out: &mut [u8]) -> u64
    ensures { (result, out.new) ≡ form.message (log_message_made fields.now source.now text.now (length out.old)) out.old }
{
    if fields.len() < 5 {
        return 15;
    }
    row::of_written(log_message::encode(row::count(fields, 0), source, text, out))
}
