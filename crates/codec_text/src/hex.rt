// A list in a request: pairs of capital hexadecimal digits, or a dash for none.
ghost use Rattle.std.specs.Prelude.{◌+◌, ◌≤◌, length};

fn pairs(s: &[u8], bytes: &mut [u8], at: usize) -> Option<usize>
    requires { at + length s.now ≤ length bytes.old }
{
    let n = s.len() / 2;
    for i in 0..n {
        let b = digits::number(&s[i * 2..i * 2 + 2], 16)?;
        bytes[at + i] = (b % 256) as u8;
    }
    Some(n)
}

// Internal. The list that s stands for, stored from `at` on: how many bytes it has. None if s is no list.
pub fn read(s: &[u8], bytes: &mut [u8], at: usize) -> Option<usize>
    requires { at + length s.now ≤ length bytes.old }
{
    if s == b"-".as_slice() {
        return Some(0);
    }
    if s.is_empty() || s.len() % 2 == 1 {
        return None;
    }
    pairs(s, bytes, at)
}
