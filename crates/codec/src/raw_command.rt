// RawCommand by hand. Its numbers are signed, with a comma between two.
use codec_text::answer::Encoded;
use codec_text::{answer, signed};
use console::Console;
use equipment_esc::raw_command;
use equipment_esc::raw_command::RawCommand;

const NAME: [u8; 3] = *b"cmd";

// The first n of the commands.
fn shown(console: &mut Console, cmd: [i64; 20], n: usize, out: &mut [u8], at: usize) -> usize {
    let a = answer::numbers(console, out, at, &NAME, &[]);
    answer::signed_list(console, out, a, &NAME, signed::first(&cmd, n))
}

pub fn decode(console: &mut Console, payload: &[u8], out: &mut [u8], at: usize) -> usize {
    match raw_command::decode(payload) {
        Err(r) => answer::refused(console, out, at, r.number()),
        Ok(x) => {
            let n = x.count;
            let cmd = x.cmd;
            shown(console, cmd, n, out, at)
        }
    }
}

// Internal.
pub fn encode(words: &[u8], out: &mut [u8]) -> Encoded {
    let mut cmd = [0i64; 20];
    let count = signed::only(words, &NAME, &mut cmd)?;
    Some(raw_command::encode(RawCommand { count, cmd }, out))
}
