// Numbers in text (RULES 12.3): decimal and capital hexadecimal digits, read and written.
#![tactic(auto)]

ghost use Rattle.std.specs.Prelude.{◌≡◌, ◌∷◌, [], ◌+◌, ◌*◌, ◌%◌, ◌≤◌, ◌<◌, length, drop};
ghost use Rattle.bits.specs.Part.{splice};
ghost use Rattle.digits.specs.Digits.{glyph, digits, count_of, words, hexes, digit_of, number as number_of};
ghost use Rattle.digits.specs.inside.Text.{Puts, as_number};
ghost use Rattle.digits.specs.Find.{before};

// Internal. The index of the first c from `from` on, or the length.
pub fn find(s: &[u8], from: usize, c: u8) -> usize
    requires { from ≤ length s.now }
    ensures { (result ≡ from + before c (drop from s.now)) × (result ≤ length s.now) }
{
    for i in from..s.len() {
        if s[i] == c {
            return i;
        }
    }
    s.len()
}

// Internal. The digit that a character is; 16, which is a digit in no base, of any other character.
pub fn digit(c: u8) -> u64
    ensures { result ≡ digit_of c }
{
    if c < 48 {
        return 16;
    }
    if c < 58 {
        return bits::le::wide(c) - 48;
    }
    if c < 65 {
        return 16;
    }
    if c < 71 {
        return bits::le::wide(c) - 55;
    }
    16
}

// Internal. The number of at most nine digits in a base of at most 16.
pub fn number(s: &[u8], base: u64) -> Option<u64>
    requires { (length s.now ≤ 9) × (base ≤ 16) }
    ensures { result ≡ as_number (number_of base s.now) }
{
    let mut v: u64 = 0;
    for c in s {
        let d = digit(*c);
        if base <= d {
            return None;
        }
        v = v * base + d;
    }
    Some(v)
}

// Internal. How many decimal digits v has.
pub fn count(v: u64) -> usize
    ensures { (result ≡ count_of v) × (result ≤ 20) }
{
    let mut k = 1;
    let mut x = v;
    // A while: how far it goes on depends on the number.
    while 10 <= x {
        x = x / 10;
        k += 1;
    }
    k
}

// Internal. The w lowest decimal digits of v, from the last one on.
pub fn put_digits(out: &mut [u8], at: usize, w: usize, v: u64)
    requires { at + w ≤ length out.old }
    ensures { out.new ≡ splice out.old at (digits 10 w v) }
{
    let mut x = v;
    for i in (0..w).rev() {
        out[at + i] = (48 + x % 10) as u8;
        x = x / 10;
    }
}

// A space and a number.
fn word(out: &mut [u8], at: usize, v: u64) -> usize
    requires { at + 21 ≤ length out.old }
    ensures { (Puts out.old out.new at result (words (v ∷ []))) × (result ≤ at + 21) }
{
    out[at] = 32;
    let w = count(v);
    put_digits(out, at + 1, w, v);
    at + 1 + w
}

// Internal. Each number after a space.
pub fn put_words(out: &mut [u8], at: usize, vs: &[u64]) -> usize
    requires { at + length vs.now * 21 ≤ length out.old }
    ensures { (Puts out.old out.new at result (words vs.now)) × (result ≤ at + length vs.now * 21) }
{
    let mut p = at;
    for v in vs {
        p = word(out, p, *v);
    }
    p
}

fn hex_digit(d: u8) -> u8
    requires { d < 16 }
    ensures { result ≡ glyph d }
{
    if d < 10 {
        return 48 + d;
    }
    55 + d
}

// Internal. The w lowest hexadecimal digits of v, from the last one on.
pub fn put_hex(out: &mut [u8], at: usize, w: usize, v: u64)
    requires { at + w ≤ length out.old }
    ensures { out.new ≡ splice out.old at (digits 16 w v) }
{
    let mut x = v;
    for i in (0..w).rev() {
        out[at + i] = hex_digit((x % 16) as u8);
        x = x / 16;
    }
}

// Internal. Each byte as two digits.
pub fn put_hexes(out: &mut [u8], at: usize, s: &[u8]) -> usize
    requires { at + length s.now * 2 ≤ length out.old }
    ensures { Puts out.old out.new at result (hexes s.now) }
{
    for (i, b) in s.iter().enumerate() {
        out[at + i * 2] = hex_digit(*b / 16);
        out[at + i * 2 + 1] = hex_digit(*b % 16);
    }
    at + s.len() * 2
}
