// The transfer checksum (RULES 6.2) by a table of 256 entries, one step a byte: twice as fast as `checksum::crc16` where the input is long, as the
// records of a capture in a file are.
#![tactic(auto)]

ghost use Rattle.std.specs.Prelude.{◌≡◌};
ghost use Rattle.checksum.specs.Crc.{crc_byte, crc_over};
ghost use Rattle.checksum.specs.Crc16.{ccitt};
ghost use Rattle.checksum_table.specs.inside.Table.{IsTable};

// The register after one byte, from 0.
fn entry(b: u8) -> u16
    ensures { result ≡ crc_byte ccitt 0 b }
{
    checksum::crc16::over(0, &[b])
}

fn table() -> [u16; 256]
    ensures { IsTable result }
{
    let mut t = [0u16; 256];
    for (i, e) in t.iter_mut().enumerate() {
        *e = entry((i % 256) as u8);
    }
    t
}

// The register c after one byte more.
fn step(t: &[u16; 256], c: u16, b: u8) -> u16
    requires { IsTable t.now }
    ensures { result ≡ crc_byte ccitt c b }
{
    let i = (c >> 8) ^ (b as u16);
    (c << 8) ^ t[i as usize]
}

// The register c after the bytes of s. As in `checksum`: a trait for the step, which is all that differs, would be longer than the loop.
fn steps(t: &[u16; 256], c: u16, s: &[u8]) -> u16
    requires { IsTable t.now }
    ensures { result ≡ crc_over ccitt c s.now }
{
    let mut r = c;
    for b in s {
        r = step(t, r, *b);
    }
    r
}

// Internal. The checksum of s from any start value. The table is made anew, which takes as long as some hundred bytes.
pub fn over(c: u16, s: &[u8]) -> u16
    ensures { result ≡ crc_over ccitt c s.now }
{
    let t = table();
    steps(&t, c, s)
}
