// The conversions at an f32 (RULES 9.12). The logic has one NaN, so no contract says which bits an f32 has that is NaN: where they matter,
// `pattern` has them.
ghost use Rattle.std.specs.Prelude.{◌≡◌};
ghost use Rattle.binary16.specs.Convert.{float_of, binary16_of};

use super::pattern;

// The f32 of a binary16.
pub fn to_f32(h: u16) -> f32
    ensures { result ≡ float_of h }
{
    let w = pattern::widen(h);
    if w == 0x7FC00000 {
        return 0.0 / 0.0;
    }
    f32::from_bits(w)
}

// The binary16 of an f32.
pub fn from_f32(x: f32) -> u16
    ensures { result ≡ binary16_of x }
{
    if x != x {
        return 0x7E00;
    }
    pattern::narrow(f32::to_bits(x))
}
