// Bytes that move up in lent memory, to make room before them.
#![tactic(auto)]

ghost use Rattle.std.specs.Prelude.{◌≡◌, ◌+◌, ◌≤◌, ◌<◌, length};
ghost use Rattle.bits.specs.Part.{span, splice};

// Internal. The n bytes from `at` on, up by so many places: the last one first, since they may lie over each other.
pub fn up(s: &mut [u8], at: usize, n: usize, by: usize)
    requires { (at + by + n ≤ length s.old) × (0 < by) }
    ensures { s.new ≡ splice s.old (at + by) (span s.old at n) }
{
    for i in (0..n).rev() {
        s[at + by + i] = s[at + i];
    }
}
