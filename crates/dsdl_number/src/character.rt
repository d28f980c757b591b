// Characters in quotes (RULES 17.6).
ghost use Rattle.std.specs.Prelude.{◌≡◌, true, ◌≤◌, length};
ghost use Rattle.dsdl_number.specs.Number.{escape as escape_of, is_closed, plain as plain_of, coded as coded_of, quoted as quoted_of};
ghost use Rattle.std.specs.Option.{unwrap_or};

use super::integer;
use dsdl_text::class;
use dsdl_text::class::Class;

// The code of an escape by its letter.
fn escape(c: u8) -> Option<u8>
    ensures { unwrap_or result 256 ≡ escape_of c }
{
    if c == 97 {
        return Some(7);
    }
    if c == 98 {
        return Some(8);
    }
    if c == 116 {
        return Some(9);
    }
    if c == 110 {
        return Some(10);
    }
    if c == 118 {
        return Some(11);
    }
    if c == 102 {
        return Some(12);
    }
    if c == 114 {
        return Some(13);
    }
    if c == 48 {
        return Some(0);
    }
    if c == 92 {
        return Some(92);
    }
    if c == 39 {
        return Some(39);
    }
    if c == 34 {
        return Some(34);
    }
    None
}

fn plain(c: u8) -> Option<u8>
    ensures { unwrap_or result 256 ≡ plain_of c }
{
    if c < 32 {
        return None;
    }
    if 126 < c {
        return None;
    }
    if c == 39 {
        return None;
    }
    Some(c)
}

fn coded(digits: &[u8]) -> Option<u8>
    ensures { unwrap_or result 256 ≡ coded_of digits.now }
{
    if !integer::many(Class::Hexadecimal, digits) {
        return None;
    }
    let v = integer::capped(digits, 16);
    if v <= 127 {
        return Some(v as u8);
    }
    None
}

// A quote is the last of the first n characters, and nothing but blanks comes behind it.
fn is_closed(s: &[u8], n: usize) -> bool
    requires { (1 ≤ n) × (n ≤ 5) }
    ensures { (result ≡ is_closed n s.now) × (result ≡ true → n ≤ length s.now) }
{
    if s.len() < n {
        return false;
    }
    if s[n - 1] != 39 {
        return false;
    }
    class::all(Class::Blank, &s[n..])
}

// Internal. The code of what follows an opening quote.
pub fn quoted(s: &[u8]) -> Option<u8>
    ensures { unwrap_or result 256 ≡ quoted_of s.now }
{
    if s.len() < 2 {
        return None;
    }
    if s[0] != 92 {
        if is_closed(s, 2) {
            return plain(s[0]);
        }
        return None;
    }
    if s[1] != 120 {
        if is_closed(s, 3) {
            return escape(s[1]);
        }
        return None;
    }
    if is_closed(s, 5) {
        return coded(&s[2..4]);
    }
    None
}
