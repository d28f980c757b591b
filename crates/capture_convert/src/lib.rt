// Logs as captures and back (RULES 18): the two calls, and their parts, which the programs `capture` and `uncapture` run on a file block by block.
#![tactic(auto)]

pub mod answer;
pub mod laws;
pub mod lines;
pub mod records;
pub mod trailer;

ghost use Rattle.std.specs.Prelude.{◌≡◌, ◌^◌, ◌<◌};
ghost use Rattle.capture_convert.specs.Answer.{length_in};
ghost use Rattle.capture_convert.specs.Convert.{captured, uncaptured};

use answer::ConvertError;

// More lines than a capture's count can tell.
const LINES_OVER: usize = 0x1_0000_0000;

// Turns a log into a capture: 18, 9, 8, or its length.
pub fn capture(log: &[u8], out: &mut [u8]) -> Result<usize, ConvertError>
    ensures out_after { record { answer = result; out = out.new } ≡ captured log.now out.old }
    ensures result_bound { length_in result < 2 ^ 38 }
{
    let Some(n) = records::scan(log) else {
        return Err(ConvertError::IllFormed);
    };
    if LINES_OVER <= n {
        return Err(ConvertError::TooMany);
    }
    let size = n * capture_record::SIZE;
    if out.len() < size + trailer::SIZE {
        return Err(ConvertError::OutputSmall);
    }
    let _ = records::records(log, out);
    let sum = trailer::sum(&out[0..size]);
    trailer::put(out, size, n, sum);
    Ok(size + trailer::SIZE)
}

// Turns a capture into a log: 22, 23, 8, or its length.
pub fn uncapture(capture: &[u8], out: &mut [u8]) -> Result<usize, ConvertError>
    ensures out_after { record { answer = result; out = out.new } ≡ uncaptured capture.now out.old }
    ensures result_bound { length_in result < 2 ^ 38 }
{
    let Some(from) = trailer::find(capture) else {
        return Err(ConvertError::NoCapture);
    };
    let to = capture.len() - trailer::SIZE;
    let Ok(len) = lines::measure(&capture[from..to]) else {
        return Err(ConvertError::NotCarried);
    };
    if out.len() < len {
        return Err(ConvertError::OutputSmall);
    }
    lines::lines(&capture[from..to], out);
    Ok(len)
}
