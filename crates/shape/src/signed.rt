// Signed numbers (RULES 9.13): what w bits stand for in two's complement.
ghost use Rattle.std.specs.Prelude.{◌≡◌, ◌+◌, ◌^◌, ◌≤◌, ◌<◌};
ghost use Rattle.std.specs.Int.Signed.{mag};
ghost use Rattle.shape.specs.Signed.{signed_of};

// Internal. w bits, all set.
pub fn ones(w: usize) -> u64
    requires { (1 ≤ w) × (w ≤ 64) }
    ensures { result + 1 ≡ 2 ^ w }
{
    let half = 1u64 << (w - 1);
    half - 1 + half
}

// Internal. n for n, and for -(n + 1).
pub fn size(v: i64) -> u64
    ensures { result ≡ mag v }
{
    if v < 0 {
        return (-1 - v) as u64;
    }
    v as u64
}

// Internal. The number that the w bits of x stand for.
pub fn value(x: u64, w: usize) -> i64
    requires { ((1 ≤ w) × (w ≤ 64)) × (x < 2 ^ w) }
    ensures { result ≡ signed_of w x }
{
    let top = ones(w);
    if x <= top / 2 {
        return x as i64;
    }
    -1 - (top - x) as i64
}
