// The transfer checksum (RULES 6.2) by a table of 16 entries (6.4), two steps a byte. The table is private: callers see the checksum's definition.
ghost use Rattle.std.specs.Prelude.{◌≡◌, ◌+◌, ◌≤◌, ◌<◌, length};
ghost use Rattle.checksum.specs.Crc.{crc_byte, crc_over};
ghost use Rattle.checksum.specs.Crc16.{ccitt, checksum};
ghost use Rattle.checksum.specs.inside.Table.{IsTable};
ghost use Rattle.bits.specs.Little.{le_bytes};
ghost use Rattle.bits.specs.Part.{span};

// The table as a value. A constant array is rebuilt at each use, so a call makes it once and lends it to every step.
fn table() -> [u16; 16]
    ensures { IsTable result }
{
    TABLE
}

// The register after the byte x, from 0: one entry for its high four bits, moved up by the second step, and one for its low four. What the second
// step finds at the top is the low four bits and, since each entry has its own number there, the high four: neither entry waits for the other.
fn two(t: &[u16; 16], x: u8) -> u16
    requires { IsTable t.now }
    ensures { result ≡ crc_byte ccitt 0 x }
{
    let h = x / 16;
    let l = x % 16;
    (t[h as usize] << 4) ^ t[(l ^ h) as usize]
}

// The register c after one byte more.
fn step(t: &[u16; 16], c: u16, b: u8) -> u16
    requires { IsTable t.now }
    ensures { result ≡ crc_byte ccitt c b }
{
    let x = (c >> 8) ^ (b as u16);
    (c << 8) ^ two(t, x as u8)
}

// The register c after the bytes of s.
fn steps(t: &[u16; 16], c: u16, s: &[u8]) -> u16
    requires { IsTable t.now }
    ensures { result ≡ crc_over ccitt c s.now }
{
    let mut r = c;
    for b in s {
        r = step(t, r, *b);
    }
    r
}

// The register after the eight bytes of a signature, lowest first, from the start value.
fn signed(t: &[u16; 16], signature: u64) -> u16
    requires { IsTable t.now }
    ensures { result ≡ crc_over ccitt 0xFFFF (le_bytes 8 signature) }
{
    let mut r: u16 = 0xFFFF;
    let mut x = signature;
    for _ in 0..8usize {
        r = step(t, r, (x % 256) as u8);
        x /= 256;
    }
    r
}

// Internal. The checksum of s from any start value.
pub fn over(c: u16, s: &[u8]) -> u16
    ensures { result ≡ crc_over ccitt c s.now }
{
    let t = table();
    steps(&t, c, s)
}

// Internal. The transfer checksum of the payload s under a signature.
pub fn transfer(signature: u64, s: &[u8]) -> u16
    ensures { result ≡ checksum signature s.now }
{
    let t = table();
    let c = signed(&t, signature);
    steps(&t, c, s)
}

// Internal. The transfer checksum of the n bytes of s from `from` on.
pub fn transfer_span(signature: u64, s: &[u8], from: usize, n: usize) -> u16
    requires { from + n ≤ length s.now }
    ensures { result ≡ checksum signature (span s.now from n) }
{
    transfer(signature, &s[from..from + n])
}

const TABLE: [u16; 16] = [
    0x0000, 0x1021, 0x2042, 0x3063, 0x4084, 0x50A5, 0x60C6, 0x70E7, 0x8108, 0x9129, 0xA14A, 0xB16B,
    0xC18C, 0xD1AD, 0xE1CE, 0xF1EF,
];
