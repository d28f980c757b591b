// LogMessage (message 16383; RULES 10.5).
ghost use Rattle.std.specs.Prelude.{◌≡◌};
ghost use Rattle.shape.specs.Answer as answer;
ghost use Rattle.shape.specs.Answer.{answer_of};
ghost use Rattle.shape.specs.Shape.{written};
ghost use Rattle.protocol_debug.specs.LogMessage.{log_message, source_length, source_in, text_in, log_message_in};

use bits::{field, width};
use shape::answer::{Place, Refusal};
use shape::{number, part};

#[derive(Drop)]
pub struct LogMessage {
    pub level: i64,
    pub source: Place,
    pub text: Place,
}

// What the source's length field says; of an empty payload 0.
fn source_length(payload: &[u8]) -> usize
    ensures { result ≡ source_length payload.now }
{
    if payload.len() < 1 {
        return 0;
    }
    field::read(payload, 3, width::width(31) as usize) as usize
}

// The source, as a part of the payload: after the first byte, as long as its length field says.
pub fn source(payload: &[u8]) -> &[u8]
    ensures { result.now ≡ source_in payload.now }
{
    part::within(payload, 1, source_length(payload))
}

// The text, as a part of the payload: all after the source.
pub fn text(payload: &[u8]) -> &[u8]
    ensures { result.now ≡ text_in payload.now }
{
    part::behind(payload, 1 + source_length(payload))
}

// Reads a log message: 15 for a payload that ends too early, 16 for one that is too long.
pub fn decode(payload: &[u8]) -> Result<LogMessage, Refusal>
    ensures { answer_of result ≡ log_message_in payload.now }
{
    let at = 1 + source_length(payload);
    if payload.len() < at {
        return Err(Refusal::TooShort);
    }
    let len = text(payload).len();
    if 90 < len {
        return Err(Refusal::TooLong);
    }
    Ok(LogMessage {
        level: number::read(payload, 0, 3),
        source: Place {
            at: 1,
            len: source(payload).len(),
        },
        text: Place { at, len },
    })
}

// Writes a log message to the front of `out`, its level saturated: 17 for a list that is too long, then 8 for too little room.
pub fn encode(level: i64, source: &[u8], text: &[u8], out: &mut [u8]) -> Result<usize, Refusal>
    ensures { (answer.answer_of result, out.new) ≡ written log_message (level, (source.now, text.now)) out.old }
{
    let fits = (source.len() <= 31) & (text.len() <= 90);
    if !fits {
        return Err(Refusal::NotAllowed);
    }
    let at = 1 + source.len();
    let n = at + text.len();
    if out.len() < n {
        return Err(Refusal::NoRoom);
    }
    number::write(out, 0, 3, level);
    field::write(out, 3, width::width(31) as usize, source.len() as u64);
    field::write_bytes(out, 1, source);
    field::write_bytes(out, at, text);
    Ok(n)
}
