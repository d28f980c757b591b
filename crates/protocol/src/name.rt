// What a node's name may hold (RULES 10.8).
ghost use Rattle.std.specs.Prelude.{◌≡◌};
ghost use Rattle.protocol.specs.Name.{between, is_letter, is_name};

fn is_between(low: u8, c: u8, high: u8) -> bool
    ensures { result ≡ between low high c }
{
    low <= c && c <= high
}

// a-z, 0-9, dash and dot, underscore. No match of ranges: in C that is a row of jumps, in the order of the numbers, and most of a name is small letters.
fn is_letter(c: u8) -> bool
    ensures { result ≡ is_letter c }
{
    if is_between(b'a', c, b'z') {
        return true;
    }
    if is_between(b'0', c, b'9') {
        return true;
    }
    if is_between(b'-', c, b'.') {
        return true;
    }
    c == b'_'
}

// Not empty, and of these letters alone.
pub fn is_name(s: &[u8]) -> bool
    ensures { result ≡ is_name s.now }
{
    if s.len() == 0 {
        return false;
    }
    for c in s {
        if !is_letter(*c) {
            return false;
        }
    }
    true
}
