// A number in a request: any number of decimal digits, with a minus sign or without. One that no number of 64 bits equals counts as the
// nearest.
ghost use Rattle.std.specs.Prelude.{◌≤◌};

use shape::signed;

const LARGEST: i64 = 9223372036854775807;

const SMALLEST: i64 = -9223372036854775808;

// A number with one digit more after it.
fn grow(v: u64, d: u64) -> u64
    requires { d ≤ 9 }
{
    if v <= (u64::MAX - d) / 10 {
        return v * 10 + d;
    }
    u64::MAX
}

// Internal. Digits alone.
pub fn digits(s: &[u8]) -> Option<u64> {
    if s.is_empty() {
        return None;
    }
    let mut v = 0;
    for c in s {
        let d = digits::digit(*c);
        if 9 < d {
            return None;
        }
        v = grow(v, d);
    }
    Some(v)
}

fn above(v: u64) -> i64 {
    if v < 9223372036854775808 {
        return signed::value(v, 64);
    }
    LARGEST
}

fn below(v: u64) -> i64 {
    if v == 0 {
        return 0;
    }
    if v < 9223372036854775808 {
        return signed::value(u64::MAX - (v - 1), 64);
    }
    SMALLEST
}

// Internal.
pub fn read(s: &[u8]) -> Option<i64> {
    if s.is_empty() {
        return None;
    }
    if s[0] == 45 {
        return Some(below(digits(&s[1..])?));
    }
    Some(above(digits(s)?))
}

// Internal. The nearest that is not below 0; 0 where there is no number.
pub fn unsigned(s: &[u8]) -> u64 {
    digits(s).unwrap_or(0)
}
