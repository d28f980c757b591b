// Integer literals (RULES 17.5).
ghost use Rattle.std.specs.Prelude.{◌≡◌, ◌≤◌, ◌<◌, min, length, MatchOption};
ghost use Rattle.dsdl_text.specs.Class.{many as many_of};
ghost use Rattle.dsdl_number.specs.Integer.{digit_of, value, is_decimal, is_prefixed, base_of};
ghost use Rattle.dsdl_number.specs.inside.Capped.{cap};

use dsdl_text::class::Class;
use dsdl_text::{class, text};

// What a number in 64 bits is cut to, if it is that large or larger.
pub const CAP: u64 = 0x800000000000000;

// Internal. At least one character, and all of the class.
pub fn many(class: Class, s: &[u8]) -> bool
    ensures { result ≡ many_of class s.now }
{
    if s.len() == 0 {
        return false;
    }
    class::all(class, s)
}

fn is_decimal(s: &[u8]) -> bool
    ensures { result ≡ is_decimal s.now }
{
    if text::same(s, b"0") {
        return true;
    }
    if s.len() == 0 {
        return false;
    }
    if !class::is(Class::Positive, s[0]) {
        return false;
    }
    class::all(Class::Decimal, s)
}

// Digits of the class behind the prefix, two characters.
fn is_prefixed(s: &[u8], prefix: &[u8], class: Class) -> bool
    requires { length prefix.now ≡ 2 }
    ensures { result ≡ is_prefixed prefix.now class s.now }
{
    if s.len() < 2 {
        return false;
    }
    if !text::same(&s[0..2], prefix) {
        return false;
    }
    many(class, &s[2..])
}

// Internal. The base of an integer literal.
pub fn base(s: &[u8]) -> Option<u64>
    ensures { MatchOption result (base_of s.now ≡ 0) (λ b. (b ≡ base_of s.now) × (0 < b)) }
{
    if is_decimal(s) {
        return Some(10);
    }
    if is_prefixed(s, b"0x", Class::Hexadecimal) {
        return Some(16);
    }
    if is_prefixed(s, b"0b", Class::Binary) {
        return Some(2);
    }
    if is_prefixed(s, b"0o", Class::Octal) {
        return Some(8);
    }
    None
}

// Internal. The digit that a character is.
pub fn digit(c: u8) -> u64
    ensures { (result ≡ digit_of c) × (result ≤ 255) }
{
    if c < 48 {
        return 0;
    }
    if c < 58 {
        return bits::le::wide(c) - 48;
    }
    if c < 71 {
        return bits::le::wide(c) - 55;
    }
    if c < 87 {
        return 0;
    }
    bits::le::wide(c) - 87
}

fn cut(v: u64) -> u64
    ensures { result ≡ min v cap }
{
    if CAP < v {
        return CAP;
    }
    v
}

// Internal. The number of digits in a base, or CAP if it is larger.
pub fn capped(s: &[u8], base: u64) -> u64
    requires { base ≤ 16 }
    ensures { result ≡ min (value base s.now) cap }
{
    let mut v: u64 = 0;
    for c in s {
        v = cut(v * base + digit(*c));
    }
    v
}

// Internal. The number of digits in base ten, or m if it is larger.
pub fn up_to(s: &[u8], m: usize) -> usize
    ensures { result ≡ min (value 10 s.now) m }
{
    let mut v: usize = 0;
    for c in s {
        let d = digit(*c) as usize;
        if m < d {
            return m;
        }
        if (m - d) / 10 < v {
            return m;
        }
        v = v * 10 + d;
    }
    v
}
