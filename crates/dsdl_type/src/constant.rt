// The numbers that a constant of a type may have (RULES 17.7).
ghost use Rattle.std.specs.Prelude.{◌≡◌, true, false, cond, ◌*◌, ◌-◌, ◌^◌, ◌≤◌, ◌≢◌, ltb, length};
ghost use Rattle.dsdl_number.specs.Integer.{value};
ghost use Rattle.dsdl_number.specs.Number.{whole};
ghost use Rattle.dsdl_number.specs.inside.Significand.{significand as significand_of, padded, are_below};
ghost use Rattle.dsdl_type.specs.Constant.{infinity_from, holds as holds_of};
ghost use Rattle.dsdl_type.specs.inside.Bases.{is_base, is_sized};
ghost use Rattle.dsdl_type.specs.inside.Whole.{whole_within, Judged};
ghost use Rattle.dsdl_type.specs.inside.Bounds.{Bound};

use super::base::Base;
use dsdl_number::significand;

fn minus(n: usize, m: usize) -> usize
    ensures { result ≡ n - m }
{
    if n < m {
        return 0;
    }
    n - m
}

// The logarithm of a base but ten.
fn log(base: u64) -> usize
    requires { (is_base base ≡ true) × (base ≢ 10) }
    ensures { (2 ^ result ≡ base) × ((1 ≤ result) × (result ≤ 4)) }
{
    if base == 16 {
        return 4;
    }
    if base == 8 {
        return 3;
    }
    1
}

// The first n digits come to less than a bound: by its digits in base ten, and in binary by some ones with zeros behind them.
fn is_under(
    s: &[u8],
    point: usize,
    n: usize,
    base: u64,
    decimals: &[u8],
    ones: u64,
    zeros: usize,
) -> bool
    requires digits { (point ≤ length s.now) × ((are_below base (significand_of point s.now) ≡ true) × (is_base base ≡ true)) }
    requires bound { Bound decimals.now ones zeros }
    ensures { result ≡ ltb (value base (padded n (significand_of point s.now))) (ones * 2 ^ zeros) }
{
    if base == 10 {
        return significand::is_below(s, point, n, decimals);
    }
    // In the other bases the bound ends in zeros as well.
    let k = log(base);
    significand::at_most(
        s,
        point,
        minus(n, zeros / k),
        base,
        (ones << (zeros % k)) - 1,
    )
}

// Internal. The first n digits come to less than what rounds to infinity in a floating type of so many bits.
pub fn is_finite(bits: u32, s: &[u8], point: usize, n: usize, base: u64) -> bool
    requires { (point ≤ length s.now) × ((are_below base (significand_of point s.now) ≡ true) × (is_base base ≡ true)) }
    ensures { result ≡ ltb (value base (padded n (significand_of point s.now))) (infinity_from bits) }
{
    if bits == 16 {
        return significand::at_most(s, point, n, base, 65519);
    }
    if bits == 32 {
        return is_under(
            s,
            point,
            n,
            base,
            b"340282356779733661637539395458142568448",
            0x1ffffff,
            103,
        );
    }
    is_under(
        s,
        point,
        n,
        base,
        b"179769313486231580793728971405303415079934132710037826936173778980444968292764750946649017977587207096330286416692887910946555547851940402630657488671505820681908902000708383676273854845817711531764475730270069855571366959622842914819860834936475292719074168444365510704342711559699508093042880177904174497792",
        0x3fffffffffffff,
        970,
    )
}

// Internal. The digits behind the first n are zeros, and the first n come to at most m.
pub fn is_within(s: &[u8], point: usize, n: usize, base: u64, m: u64) -> bool
    requires { (point ≤ length s.now) × ((1 ≤ base) × (base ≤ 16)) }
    ensures { result ≡ whole_within s.now point n base m }
{
    if !significand::are_zero(s, point, n, s.len()) {
        return false;
    }
    significand::at_most(s, point, n, base, m)
}

fn ones(bits: u32) -> u64
    requires { bits ≤ 64 }
    ensures { result ≡ 2 ^ bits - 1 }
{
    if bits == 64 {
        return 0xffffffffffffffff;
    }
    (1u64 << bits) - 1
}

fn side(negative: bool, low: u64, high: u64) -> u64
    ensures { result ≡ cond negative low high }
{
    if negative {
        return low;
    }
    high
}

// Internal. The type holds the number that has these digits, the first n of them as its whole part.
pub fn holds(b: Base, negative: bool, s: &[u8], point: usize, n: usize, base: u64) -> bool
    requires { (is_sized b ≡ true) × ((point ≤ length s.now) × ((are_below base (significand_of point s.now) ≡ true) × (is_base base ≡ true))) }
    ensures { Judged b negative s.now point n base result }
{
    match b {
        Base::Boolean => is_within(s, point, n, base, side(negative, 0, 1)),
        Base::Signed(bits) => {
            let m = ones(bits - 1);
            is_within(s, point, n, base, side(negative, m + 1, m))
        }
        Base::Unsigned(bits) => {
            let m = ones(bits);
            is_within(s, point, n, base, side(negative, 0, m))
        }
        Base::Floating(bits) => is_finite(bits, s, point, n, base),
        Base::Void(_) => false,
        Base::Nested => false,
        Base::Unknown => false,
    }
}

// Internal. The type holds a small whole number: the code of a character, or a truth value.
pub fn holds_code(b: Base, code: u64) -> bool
    requires { (is_sized b ≡ true) × (code ≤ 255) }
    ensures { result ≡ holds_of b (whole false code) }
{
    match b {
        Base::Boolean => code <= 1,
        Base::Signed(bits) => code <= ones(bits - 1),
        Base::Unsigned(bits) => code <= ones(bits),
        Base::Floating(_) => true,
        Base::Void(_) => false,
        Base::Nested => false,
        Base::Unknown => false,
    }
}
