// A number of a message, at any bit (RULES 9.2, 9.13, 9.14).
ghost use Rattle.std.specs.Prelude.{◌≡◌, ◌+◌, ◌*◌, ◌^◌, ◌≤◌, ◌<◌, pos, length, drop};
ghost use Rattle.bits.specs.Order.{unpack, to_bits, from_bits, store};
ghost use Rattle.shape.specs.Cast.{unsigned, signed as of_sign, saturated, truncated, cast_bits};
ghost use Rattle.shape.specs.Signed.{signed_of};

use super::{cast, signed};
use bits::field;

// Internal. The unsigned number of the w bits from bit `at` on.
pub fn read(s: &[u8], at: usize, w: usize) -> i64
    requires { (w ≤ 63) × ((at < 2 ^ 63) × (at + w ≤ length s.now * 8)) }
    ensures { result ≡ pos (from_bits w (drop at (unpack s.now))) }
{
    field::read(s, at, w) as i64
}

// Internal. The signed number of the w bits from bit `at` on.
pub fn read_signed(s: &[u8], at: usize, w: usize) -> i64
    requires { (1 ≤ w) × ((w ≤ 64) × ((at < 2 ^ 63) × (at + w ≤ length s.now * 8))) }
    ensures { result ≡ signed_of w (from_bits w (drop at (unpack s.now))) }
{
    signed::value(field::read(s, at, w), w)
}

// Internal. v in the w bits from bit `at` on, unsigned and saturated.
pub fn write(s: &mut [u8], at: usize, w: usize, v: i64)
    requires { (1 ≤ w) × ((w ≤ 64) × ((at < 2 ^ 63) × (at + w ≤ length s.old * 8))) }
    ensures { s.new ≡ store s.old at (to_bits w (cast_bits unsigned saturated w v)) }
{
    field::write(s, at, w, cast::unsigned(v, w));
}

// Internal. The same, signed and saturated.
pub fn write_signed(s: &mut [u8], at: usize, w: usize, v: i64)
    requires { (1 ≤ w) × ((w ≤ 64) × ((at < 2 ^ 63) × (at + w ≤ length s.old * 8))) }
    ensures { s.new ≡ store s.old at (to_bits w (cast_bits of_sign saturated w v)) }
{
    field::write(s, at, w, cast::signed(v, w));
}

// Internal. The same, unsigned and truncated.
pub fn write_truncated(s: &mut [u8], at: usize, w: usize, v: i64)
    requires { (1 ≤ w) × ((w ≤ 64) × ((at < 2 ^ 63) × (at + w ≤ length s.old * 8))) }
    ensures { s.new ≡ store s.old at (to_bits w (cast_bits unsigned truncated w v)) }
{
    field::write(s, at, w, cast::truncated(v, w));
}
