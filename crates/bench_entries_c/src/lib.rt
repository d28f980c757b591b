// Internal functions and messages under C names, for bench/ and for the comparison of conversions in tests/. Not part of the product.
#![tactic(auto)]

mod battery;
mod floats;
mod info;
mod status;

ghost use Rattle.std.specs.Prelude.{◌≡◌};
ghost use Rattle.checksum.specs.Crc.{crc_over};
ghost use Rattle.checksum.specs.Crc16.{ccitt};

#[unsafe(no_mangle)]
pub extern "C" fn bench_crc16(c: u16, s: &[u8]) -> u16
    ensures { result ≡ crc_over ccitt c s.now }
{
    bench_entries::bench_crc16(c, s)
}
