// The form of floating literals (RULES 17.6).
ghost use Rattle.std.specs.Prelude.{◌≡◌, ◌||◌, ◌+◌, ◌-◌, ◌≤◌, ◌<◌, min, eqb, length};
ghost use Rattle.dsdl_number.specs.Number.{sign_length, fraction, is_exponent, exponent, is_floating};
ghost use Rattle.dsdl_number.specs.inside.Significand.{zeros};

use super::integer;
use dsdl_text::class;
use dsdl_text::class::Class;

// More zeros than any bound of a constant has digits.
const ZEROS: usize = 400;

// Internal. 1 if a sign is in front.
pub fn sign_length(s: &[u8]) -> usize
    ensures { (result ≡ sign_length s.now) × (result ≤ length s.now) }
{
    if s.len() == 0 {
        return 0;
    }
    if s[0] == 43 {
        return 1;
    }
    if s[0] == 45 {
        return 1;
    }
    0
}

fn is_e(c: u8) -> bool
    ensures { result ≡ eqb c 101 || eqb c 69 }
{
    if c == 101 {
        return true;
    }
    c == 69
}

// Internal. All of s is an exponent.
pub fn is_exponent(s: &[u8]) -> bool
    ensures { result ≡ is_exponent s.now }
{
    if s.len() == 0 {
        return false;
    }
    if !is_e(s[0]) {
        return false;
    }
    let n = 1 + sign_length(&s[1..]);
    integer::many(Class::Decimal, &s[n..])
}

// Internal. How many digits come behind a point at the front of s.
pub fn fraction_length(s: &[u8]) -> usize
    ensures { (result ≡ length (fraction s.now)) × (0 < result → 1 + result ≤ length s.now) }
{
    if s.len() == 0 {
        return 0;
    }
    if s[0] != 46 {
        return 0;
    }
    class::run(Class::Decimal, &s[1..])
}

// Internal. The text is a floating literal.
pub fn is_floating(s: &[u8]) -> bool
    ensures { result ≡ is_floating s.now }
{
    let i = class::run(Class::Decimal, s);
    if i == 0 {
        return false;
    }
    let f = fraction_length(&s[i..]);
    if f == 0 {
        return is_exponent(&s[i..]);
    }
    let p = i + 1 + f;
    if p == s.len() {
        return true;
    }
    is_exponent(&s[p..])
}

// Internal. How many digits the whole part of a literal has, by its digits before the point and behind it and its exponent, if e is one.
// No more than ZEROS zeros are put behind its digits.
pub fn whole_digits(e: &[u8], before: usize, behind: usize) -> usize
    requires { before + behind < 0x8000000000000000 }
    ensures { result ≡ before + min (exponent 43 e.now) (behind + zeros) - exponent 45 e.now }
{
    if !is_exponent(e) {
        return before;
    }
    let n = 1 + sign_length(&e[1..]);
    if e[1] == 45 {
        return before - integer::up_to(&e[n..], before);
    }
    before + integer::up_to(&e[n..], behind + ZEROS)
}
