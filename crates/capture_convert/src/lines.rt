// Records to lines (RULES 18.4).
ghost use Rattle.std.specs.Prelude.{◌≡◌, true, ◌*◌, ◌+◌, ◌/◌, ◌^◌, ◌≤◌, ◌<◌, length, MatchResult};
ghost use Rattle.digits.specs.Digits.{count_of};
ghost use Rattle.digits.specs.inside.Text.{Puts};
ghost use Rattle.log_line.specs.Line.{line_of};
ghost use Rattle.capture_record.specs.Record.{record_size, frame_of, carriable};
ghost use Rattle.capture_convert.specs.inside.Walks.{Measured, Halted, Lined, Prints};

// The length of the line of a frame with n data bytes.
fn line_length(time: u64, n: usize) -> usize
    requires { n ≤ 8 }
    ensures { (result ≡ count_of (time / 1000000) + 14 + n * 3) × (result ≤ 58) }
{
    digits::count(time / 1_000_000) + 14 + n * 3
}

// Internal. The length of the lines of whole records, one after the other; or how many there are before the first that no line can carry.
pub fn measure(records: &[u8]) -> Result<usize, usize>
    requires { length records.now < 2 ^ 37 }
    ensures { MatchResult result (Measured records.now) (λ _. Halted records.now) }
{
    let n = records.len() / capture_record::SIZE;
    let mut len = 0;
    for count in 0..n {
        let at = count * capture_record::SIZE;
        let s = capture_record::read(&records[at..at + capture_record::SIZE]);
        if !s.ok {
            return Err(count);
        }
        len += line_length(s.time, s.len);
    }
    Ok(len)
}

// The line of a record, from p on; the place past it.
fn line(r: &[u8], out: &mut [u8], p: usize) -> usize
    requires { (length r.now ≡ record_size) × ((carriable r.now ≡ true) × (p + length (line_of (frame_of r.now)) ≤ length out.old)) }
    ensures { Puts out.old out.new p result (line_of (frame_of r.now)) }
{
    let s = capture_record::read(r);
    let to = 13 + s.len;
    log_line::write::put(out, p, s.time, s.id, &r[13..to])
}

// Internal. The lines of records that lines can carry, at the front of `out`.
pub fn lines(records: &[u8], out: &mut [u8]) -> usize
    requires { Prints records.now (length out.old) }
    ensures { Lined records.now out.old result out.new }
{
    let n = records.len() / capture_record::SIZE;
    let mut p = 0;
    for count in 0..n {
        let at = count * capture_record::SIZE;
        p = line(&records[at..at + capture_record::SIZE], out, p);
    }
    p
}
