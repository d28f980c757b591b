// One line of a log, written (RULES 12.2).
ghost use Rattle.std.specs.Prelude.{◌≡◌, ◌∷◌, ◌+◌, ◌*◌, ◌/◌, ◌≤◌, length};
ghost use Rattle.bits.specs.Part.{splice};
ghost use Rattle.rules.specs.Sent.{frame_at};
ghost use Rattle.digits.specs.Digits.{digits, count_of};
ghost use Rattle.digits.specs.inside.Text.{Puts};
ghost use Rattle.log_line.specs.Line.{time_text, data_text, line_of};

// A time in microseconds as seconds, a dot and three digits.
fn put_time(out: &mut [u8], at: usize, time: u64) -> usize
    requires { at + (count_of (time / 1000000) + 4) ≤ length out.old }
    ensures { Puts out.old out.new at result (time_text time) }
{
    let w = digits::count(time / 1_000_000);
    digits::put_digits(out, at, w, time / 1_000_000);
    out[at + w] = b'.';
    digits::put_digits(out, at + w + 1, 3, time / 1_000 % 1_000);
    at + w + 4
}

// A space and the ID.
fn put_id(out: &mut [u8], at: usize, id: u32) -> usize
    requires { at + 9 ≤ length out.old }
    ensures { Puts out.old out.new at result (32 ∷ digits 16 8 id) }
{
    out[at] = b' ';
    digits::put_hex(out, at + 1, 8, id as u64);
    at + 9
}

// A space and a byte.
fn put_byte(out: &mut [u8], at: usize, b: u8)
    requires { at + 3 ≤ length out.old }
    ensures { out.new ≡ splice out.old at (32 ∷ digits 16 2 b) }
{
    out[at] = b' ';
    digits::put_hex(out, at + 1, 2, b as u64);
}

// Each data byte after a space.
fn put_data(out: &mut [u8], at: usize, s: &[u8]) -> usize
    requires { at + length s.now * 3 ≤ length out.old }
    ensures { Puts out.old out.new at result (data_text s.now) }
{
    for (i, b) in s.iter().enumerate() {
        put_byte(out, at + i * 3, *b);
    }
    at + s.len() * 3
}

// Internal. The line of a frame, from `at` on; the place past it.
pub fn put(out: &mut [u8], at: usize, time: u64, id: u32, s: &[u8]) -> usize
    requires { at + (count_of (time / 1000000) + 14 + length s.now * 3) ≤ length out.old }
    ensures { Puts out.old out.new at result (line_of (frame_at id s.now time)) }
{
    let p = put_time(out, at, time);
    let q = put_id(out, p, id);
    let e = put_data(out, q, s);
    out[e] = b'\n';
    e + 1
}
