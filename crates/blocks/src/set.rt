// Sets of numbers below 64 as one word: bit b is 1 where b is in the set.
ghost use Rattle.std.specs.Prelude.{◌≡◌, ◌<◌, eqb};
ghost use Rattle.std.specs.Int.Count.{count_trailing_zeros};
ghost use Rattle.blocks.specs.inside.Bit.{bit_at, including, excluding};

// All of them.
pub const ALL: u64 = 18446744073709551615;

// Internal. The number b is in the set.
pub fn has(set: u64, b: u32) -> bool
    requires { b < 64 }
    ensures { result ≡ eqb (bit_at b set) 1 }
{
    (set >> b) % 2 == 1
}

// Internal. The set with b in it.
pub fn include(set: u64, b: u32) -> u64
    requires { b < 64 }
    ensures { result ≡ including set b }
{
    if has(set, b) {
        return set;
    }
    set + (1u64 << b)
}

// Internal. The set without b.
pub fn exclude(set: u64, b: u32) -> u64
    requires { b < 64 }
    ensures { result ≡ excluding set b }
{
    if has(set, b) {
        return set - (1u64 << b);
    }
    set
}

// Internal. The lowest number of the set, or 64.
pub fn lowest(set: u64) -> u32
    ensures { result ≡ count_trailing_zeros 64 set }
{
    u64::trailing_zeros(set)
}
