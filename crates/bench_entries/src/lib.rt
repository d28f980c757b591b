// Internal functions and messages for bench/ and for the comparison of conversions in tests/, which bench_entries_c gives to C. Not part of the product.
#![tactic(auto)]

pub mod battery;
pub mod floats;
pub mod info;
pub mod status;

ghost use Rattle.std.specs.Prelude.{◌≡◌};
ghost use Rattle.checksum.specs.Crc.{crc_over};
ghost use Rattle.checksum.specs.Crc16.{ccitt};

pub fn bench_crc16(c: u16, s: &[u8]) -> u16
    ensures { result ≡ crc_over ccitt c s.now }
{
    checksum::crc16::over(c, s)
}
