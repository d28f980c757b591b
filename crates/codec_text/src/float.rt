// A float in a request: the number that the 32 bits of an f32 make. It is no integer, so none is clipped.
use shape::signed;

// Internal.
pub fn is_pattern(v: i64) -> bool {
    (0 <= v) & (v < 4294967296)
}

// Internal. The 32 bits of a pattern.
pub fn bits(v: i64) -> u32 {
    (signed::size(v) % 4294967296) as u32
}
