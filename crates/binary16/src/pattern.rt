// The conversions on bit patterns (RULES 9.12).
ghost use Rattle.std.specs.Prelude.{◌≡◌, ◌+◌, ◌*◌, ◌^◌, ◌≤◌, ◌<◌};
ghost use Rattle.std.specs.Float.Ieee.Nearest.{closest};
ghost use Rattle.binary16.specs.Convert.{widened, widened_code, narrowed, rounded_code};

// A finite binary16 without its sign. A normal one has its exponent raised by 112, the difference of the biases; the highest digit of a
// subnormal one becomes the leading digit, which adds one to the exponent's field.
fn wide(c: u32) -> u32
    requires { c < 0x7C00 }
    ensures { (result ≡ widened_code c) × (result < 0x47800000) }
{
    if 1024 <= c {
        return c * 8192 + 0x38000000;
    }
    if c == 0 {
        return 0;
    }
    let z = u32::leading_zeros(c);
    (133 - z) * 0x800000 + (c << (z - 8))
}

// The f32 of a binary16: of exactly its value. Every NaN is 0x7FC00000.
pub fn widen(h: u16) -> u32
    ensures { result ≡ widened h }
{
    let x = h as u32;
    let c = x % 0x8000;
    if 0x7C00 < c {
        return 0x7FC00000;
    }
    let s = x / 0x8000 * 0x80000000;
    if c == 0x7C00 {
        return s + 0x7F800000;
    }
    s + wide(c)
}

// m without its d lowest digits, to the nearest, a tie to the even one: half a unit less one is added, and one more where the quotient is odd.
fn rounded(m: u32, d: u32) -> u32
    requires { (m < 0x1000000) × (13 ≤ d) × (d ≤ 24) }
    ensures { (result ≡ closest m (2 ^ d)) × (result ≤ 2048) }
{
    (m + ((1 << (d - 1)) - 1) + (m >> d) % 2) >> d
}

// An f32 below the smallest normal binary16, 2^-14, without its sign. Below 2^-25 nothing is left.
fn small(c: u32) -> u32
    requires { c < 0x38800000 }
    ensures { (result ≡ rounded_code c) × (result ≤ 2048) }
{
    let e = c / 0x800000;
    if e < 102 {
        return 0;
    }
    rounded(c % 0x800000 + 0x800000, 126 - e)
}

// One from there to below 65520: the exponent lowered by 112, the difference of the biases, and the digits rounded as in `rounded`. A
// carry out of the digits raises the exponent.
fn normal(c: u32) -> u32
    requires { (0x38800000 ≤ c) × (c < 0x477FF000) }
    ensures { (result ≡ rounded_code c) × (result ≤ 0x7BFF) }
{
    (c - 0x38000000 + 0xFFF + c / 8192 % 2) / 8192
}

// The binary16 of an f32: the nearest finite one, an infinity as itself. Every NaN is 0x7E00.
pub fn narrow(x: u32) -> u16
    ensures { result ≡ narrowed x }
{
    let c = x % 0x80000000;
    let s = (x / 0x80000000 * 0x8000) as u16;
    if c < 0x38800000 {
        return s + small(c) as u16;
    }
    if c < 0x477FF000 {
        return s + normal(c) as u16;
    }
    if c < 0x7F800000 {
        return s + 0x7BFF;
    }
    if c == 0x7F800000 {
        return s + 0x7C00;
    }
    0x7E00
}
