// The signature hash, CRC-64-WE (RULES 11.2), and its extension by the signature of a nested type (11.3).
ghost use Rattle.std.specs.Prelude.{◌≡◌};
ghost use Rattle.checksum.specs.Crc.{shift, crc_byte, crc_over};
ghost use Rattle.checksum.specs.Signature.{we, hash_from, extended};

const POLYNOMIAL: u64 = 0x42F0E1EBA9EA3693;

// One place up; the polynomial once more for a one that leaves at the top.
fn up(c: u64) -> u64
    ensures { result ≡ shift we c }
{
    if c < 0x8000000000000000 {
        return c << 1;
    }
    (c << 1) ^ POLYNOMIAL
}

// The register c after one byte more.
fn step(c: u64, b: u8) -> u64
    ensures { result ≡ crc_byte we c b }
{
    let mut r = c ^ ((b as u64) << 56);
    for _ in 0..8usize {
        r = up(r);
    }
    r
}

// The register c after the bytes of s. As in `crc16`: a trait for the step, which is all that differs, would be longer than the loop.
fn steps(c: u64, s: &[u8]) -> u64
    ensures { result ≡ crc_over we c s.now }
{
    let mut r = c;
    for b in s {
        r = step(r, *b);
    }
    r
}

// The hash of s, continued from the hash h; from 0 it is the hash of s alone.
pub fn hash_from(h: u64, s: &[u8]) -> u64
    ensures { result ≡ hash_from h s.now }
{
    steps(h ^ 0xFFFFFFFFFFFFFFFF, s) ^ 0xFFFFFFFFFFFFFFFF
}

// The hash h extended by the signature of a nested type: that signature, then h itself, each lowest byte first.
pub fn extend(h: u64, nested: u64) -> u64
    ensures { result ≡ extended h nested }
{
    let mut s = [0u8; 16];
    bits::le::put_at(&mut s, 0, 8, nested);
    bits::le::put_at(&mut s, 8, 8, h);
    hash_from(h, &s)
}
