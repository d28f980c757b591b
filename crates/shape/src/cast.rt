// Cast modes (RULES 9.14): the w bits that a number is written as, one that they do not hold too.
ghost use Rattle.std.specs.Prelude.{◌≡◌, ◌%◌, ◌^◌, ◌≤◌, min};
ghost use Rattle.shape.specs.Cast.{unsigned, signed, saturated, low_bits, cast_bits};

use super::signed::{ones, size};

// By hand: what goes to C calls no generic function of the library, as `min` is.
fn least(a: u64, b: u64) -> u64
    ensures { result ≡ min a b }
{
    if a < b {
        return a;
    }
    b
}

// Internal. Saturated, of an unsigned field.
pub fn unsigned(v: i64, w: usize) -> u64
    requires { (1 ≤ w) × (w ≤ 64) }
    ensures { result ≡ cast_bits unsigned saturated w v }
{
    if v < 0 {
        return 0;
    }
    least(size(v), ones(w))
}

// Internal. Saturated, of a signed field.
pub fn signed(v: i64, w: usize) -> u64
    requires { (1 ≤ w) × (w ≤ 64) }
    ensures { result ≡ cast_bits signed saturated w v }
{
    let top = ones(w);
    let n = least(size(v), top / 2);
    if v < 0 {
        return top - n;
    }
    n
}

fn lowest(x: u64, w: usize) -> u64
    requires { (1 ≤ w) × (w ≤ 64) }
    ensures { result ≡ x % 2 ^ w }
{
    let top = ones(w);
    if x <= top {
        return x;
    }
    x % (top + 1)
}

// Internal. Truncated, of any field. `signed` cuts the size otherwise, and a parameter for how would be longer.
pub fn truncated(v: i64, w: usize) -> u64
    requires { (1 ≤ w) × (w ≤ 64) }
    ensures { result ≡ low_bits w v }
{
    let top = ones(w);
    let n = lowest(size(v), w);
    if v < 0 {
        return top - n;
    }
    n
}
