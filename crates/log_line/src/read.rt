// One line of a log, read into a frame and its time (RULES 12.2).
ghost use Rattle.std.specs.Prelude.{◌≡◌, true, ◌+◌, ◌*◌, ◌-◌, ◌≤◌, length, drop, replicate, IfSome};
ghost use Rattle.bits.specs.Part.{span};
ghost use Rattle.log_line.specs.Reading.{pair_of, pairs as pairs_of, shaped, fields_of, line_with, line_in};
ghost use Rattle.log_line.specs.inside.Bytes.{bytes_in};
ghost use Rattle.digits.specs.Digits.{number as number_of};
ghost use Rattle.digits.specs.inside.Text.{as_number};

// A well-formed line that was read: how many characters its time takes, and the frame.
#[derive(Drop)]
pub struct Line {
    pub head: usize,
    pub id: u32,
    pub time: u64,
    pub len: usize,
    pub bytes: [u8; 8],
}

// The number of the n characters from `at` on.
fn number(line: &[u8], at: usize, n: usize, base: u64) -> Option<u64>
    requires { (at + n ≤ length line.now) × ((n ≤ 9) × (base ≤ 16)) }
    ensures { result ≡ as_number (number_of base (span line.now at n)) }
{
    digits::number(&line[at..at + n], base)
}

// The byte after the space at `at`.
fn pair(line: &[u8], at: usize) -> Option<u8>
    requires { at + 3 ≤ length line.now }
    ensures { result ≡ as_number (pair_of (drop at line.now)) }
{
    if line[at] != 32 {
        return None;
    }
    let b = number(line, at + 1, 2, 16)?;
    Some(b as u8)
}

// k data bytes, if each is a space and two digits.
fn pairs(line: &[u8], at: usize, k: usize) -> Option<[u8; 8]>
    requires { (k ≤ 8) × (at + k * 3 ≤ length line.now) }
    ensures { (bytes_in result k ≡ pairs_of k (drop at line.now)) × IfSome result (λ bytes. (length bytes ≡ 8) × (drop k bytes ≡ replicate (8 - k) 0)) }
{
    let mut bytes = [0u8; 8];
    for j in 0..k {
        let b = pair(line, at + j * 3)?;
        bytes[j] = b;
    }
    Some(bytes)
}

// The length, the space after the time and the line feed fit s characters of seconds.
fn is_shaped(line: &[u8], s: usize) -> bool
    requires { s ≤ length line.now }
    ensures { result ≡ shaped s line.now }
{
    let n = line.len();
    if s == 0 {
        return false;
    }
    if 9 < s {
        return false;
    }
    if n < s + 14 {
        return false;
    }
    if s + 38 < n {
        return false;
    }
    if 0 < (n - (s + 14)) % 3 {
        return false;
    }
    if line[s + 4] == 32 {
        return line[n - 1] == 10;
    }
    false
}

// The numbers of a line of that shape.
fn fields(line: &[u8], s: usize) -> Option<Line>
    requires { shaped s line.now ≡ true }
    ensures { result ≡ line_with s (fields_of s line.now) }
{
    let sec = number(line, 0, s, 10)?;
    if digits::count(sec) != s {
        return None;
    }
    let ms = number(line, s + 1, 3, 10)?;
    let id = number(line, s + 5, 8, 16)?;
    let len = (line.len() - (s + 14)) / 3;
    let bytes = pairs(line, s + 13, len)?;
    Some(Line {
        head: s + 4,
        id: id as u32,
        time: sec * 1_000_000 + ms * 1_000,
        len,
        bytes,
    })
}

// Reads a line, its line feed included; None if it is not well formed.
pub fn read(line: &[u8]) -> Option<Line>
    ensures { result ≡ line_in line.now }
{
    let s = digits::find(line, 0, 46);
    if is_shaped(line, s) {
        return fields(line, s);
    }
    None
}
