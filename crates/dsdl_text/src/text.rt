// Texts that are equal.
ghost use Rattle.std.specs.Prelude.{◌≡◌};
ghost use Rattle.dsdl_text.specs.Text.{same as same_text};

// Internal. The two are the same text.
pub fn same(a: &[u8], b: &[u8]) -> bool
    ensures { result ≡ same_text a.now b.now }
{
    if a.len() != b.len() {
        return false;
    }
    // A loop in the place of `a == b`, a call of a generic function, which has no translation to C (portable/).
    for (i, c) in a.iter().enumerate() {
        if *c != b[i] {
            return false;
        }
    }
    true
}
