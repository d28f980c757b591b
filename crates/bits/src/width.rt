// The width of a list's length field (RULES 9.3).
ghost use Rattle.std.specs.Prelude.{◌≡◌};
ghost use Rattle.bits.specs.Width.{width_of};

// Internal. The fewest bits that hold m: the word size less the leading zeros of m.
pub fn width(m: u64) -> u32
    ensures { result ≡ width_of m }
{
    64 - u64::leading_zeros(m)
}
