// The digits of a literal without its point (RULES 17.6), and what the first of them come to.
ghost use Rattle.std.specs.Prelude.{◌≡◌, ◌+◌, ◌≤◌, leb, length, get_or, drop};
ghost use Rattle.dsdl_number.specs.Integer.{digit_of, value};
ghost use Rattle.dsdl_number.specs.inside.Significand.{significand, padded, are_zero, is_less, is_below};

use super::integer;

// The digit number k of a text that has a point behind `point` digits, or none; 0 behind the last.
fn digit_at(s: &[u8], point: usize, k: usize) -> u64
    requires { point ≤ length s.now }
    ensures { (result ≡ digit_of (get_or (significand point s.now) k 48)) × (result ≤ 255) }
{
    if k < point {
        return integer::digit(s[k]);
    }
    if s.len() == 0 {
        return 0;
    }
    if k < s.len() - 1 {
        return integer::digit(s[k + 1]);
    }
    0
}

// Internal. The first n digits in a base come to at most m.
pub fn at_most(s: &[u8], point: usize, n: usize, base: u64, m: u64) -> bool
    requires { (point ≤ length s.now) × ((1 ≤ base) × (base ≤ 16)) }
    ensures { result ≡ leb (value base (padded n (significand point s.now))) m }
{
    let mut v: u64 = 0;
    for k in 0..n {
        let d = digit_at(s, point, k);
        if m < d {
            return false;
        }
        if (m - d) / base < v {
            return false;
        }
        v = v * base + d;
    }
    true
}

// Internal. All digits from the place `from` on, before the place `to`, are zeros.
pub fn are_zero(s: &[u8], point: usize, from: usize, to: usize) -> bool
    requires { point ≤ length s.now }
    ensures { result ≡ are_zero (drop from (padded to (significand point s.now))) }
{
    for k in from..to {
        if digit_at(s, point, k) != 0 {
            return false;
        }
    }
    true
}

// The digits from the place `from` on are less than those of the bound, as many as these are.
fn is_less(s: &[u8], point: usize, from: usize, bound: &[u8]) -> bool
    requires { (point ≤ length s.now) × (from + length bound.now ≤ 0xffffffffffffffff) }
    ensures { result ≡ is_less (drop from (padded (from + length bound.now) (significand point s.now))) bound.now }
{
    for (i, c) in bound.iter().enumerate() {
        let d = digit_at(s, point, from + i);
        let e = integer::digit(*c);
        if d < e {
            return true;
        }
        if e < d {
            return false;
        }
    }
    false
}

// Internal. The first n digits in a base come to less than the bound, digits that do not begin with a zero.
pub fn is_below(s: &[u8], point: usize, n: usize, bound: &[u8]) -> bool
    requires { point ≤ length s.now }
    ensures { result ≡ is_below (padded n (significand point s.now)) bound.now }
{
    let m = bound.len();
    if n < m {
        return true;
    }
    if !are_zero(s, point, 0, n - m) {
        return false;
    }
    is_less(s, point, n - m, bound)
}
