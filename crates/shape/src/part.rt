// Parts of a lent payload that may end anywhere (RULES 9.9).
ghost use Rattle.std.specs.Prelude.{◌≡◌, drop};
ghost use Rattle.bits.specs.Part.{span};

// Internal. What comes after the first `at` bytes: nothing, where the payload ends before.
pub fn behind(payload: &[u8], at: usize) -> &[u8]
    ensures { result.now ≡ drop at payload.now }
{
    if payload.len() < at {
        return &payload[0..0];
    }
    &payload[at..]
}

// Internal. The n bytes from byte `at` on, or as many of them as there are.
pub fn within(payload: &[u8], at: usize, n: usize) -> &[u8]
    ensures { result.now ≡ span payload.now at n }
{
    let rest = behind(payload, at);
    if rest.len() < n {
        return rest;
    }
    &rest[0..n]
}
