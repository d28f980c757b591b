// Numbers as bytes, low byte first (RULES 1.7).
ghost use Rattle.std.specs.Prelude.{◌≡◌, ◌+◌, ◌≤◌, ◌<◌, length};
ghost use Rattle.bits.specs.Part.{span, splice};
ghost use Rattle.bits.specs.Little.{le, le_bytes};

// Internal. A byte as a wider number.
pub fn wide(x: u8) -> u64
    ensures { result ≡ x }
{
    x as u64
}

// The number that at most eight bytes stand for.
fn get(s: &[u8]) -> u64
    requires { length s.now ≤ 8 }
    ensures { result ≡ le s.now }
{
    let mut v: u64 = 0;
    for i in (0..s.len()).rev() {
        v = v * 256 + wide(s[i]);
    }
    v
}

// The lowest bytes of v, as many as s has.
fn put(s: &mut [u8], v: u64)
    ensures { s.new ≡ le_bytes (length s.old) v }
{
    let mut x = v;
    for b in s.iter_mut() {
        *b = (x % 256) as u8;
        x /= 256;
    }
}

// Internal. The number of the n bytes from `at` on.
pub fn get_at(s: &[u8], at: usize, n: usize) -> u64
    requires { (at + n ≤ length s.now) × (n ≤ 8) }
    ensures { result ≡ le (span s.now at n) }
{
    get(&s[at..at + n])
}

// A byte as a number of 32 bits.
fn byte(x: u8) -> u32
    ensures { (result ≡ x) × (result < 256) }
{
    x as u32
}

// Internal. The number of the two bytes from `at` on.
pub fn get_u16(s: &[u8], at: usize) -> u32
    requires { at + 2 ≤ length s.now }
    ensures { result ≡ le (span s.now at 2) }
{
    byte(s[at]) + 256 * byte(s[at + 1])
}

// Internal. The number of the four bytes from `at` on. With no loop, and as one sum, it becomes a single load.
pub fn get_u32(s: &[u8], at: usize) -> u32
    requires { at + 4 ≤ length s.now }
    ensures { result ≡ le (span s.now at 4) }
{
    byte(s[at]) + 256 * byte(s[at + 1]) + 65536 * byte(s[at + 2]) + 16777216 * byte(s[at + 3])
}

// Internal. The number of the eight bytes from `at` on.
pub fn get_u64(s: &[u8], at: usize) -> u64
    requires { at + 8 ≤ length s.now }
    ensures { result ≡ le (span s.now at 8) }
{
    get_u32(s, at) as u64 + 4294967296 * (get_u32(s, at + 4) as u64)
}

// Internal. The n lowest bytes of v, stored from `at` on.
pub fn put_at(s: &mut [u8], at: usize, n: usize, v: u64)
    requires { at + n ≤ length s.old }
    ensures { s.new ≡ splice s.old at (le_bytes n v) }
{
    put(&mut s[at..at + n], v);
}

// Internal. The number v as the four bytes from `at` on. With no loop it becomes a single store.
pub fn put_u32(s: &mut [u8], at: usize, v: u32)
    requires { at + 4 ≤ length s.old }
    ensures { s.new ≡ splice s.old at (le_bytes 4 v) }
{
    s[at] = (v % 256) as u8;
    s[at + 1] = (v / 256 % 256) as u8;
    s[at + 2] = (v / 65536 % 256) as u8;
    s[at + 3] = (v / 16777216 % 256) as u8;
}

// Internal. The number v as the eight bytes from `at` on.
pub fn put_u64(s: &mut [u8], at: usize, v: u64)
    requires { at + 8 ≤ length s.old }
    ensures { s.new ≡ splice s.old at (le_bytes 8 v) }
{
    put_u32(s, at, (v % 4294967296) as u32);
    put_u32(s, at + 4, (v / 4294967296) as u32);
}
