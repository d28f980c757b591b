// The conversions of floats under C names.
ghost use Rattle.std.specs.Prelude.{◌≡◌};
ghost use Rattle.binary16.specs.Convert.{widened, narrowed, float_of, binary16_of};

#[unsafe(no_mangle)]
pub extern "C" fn bench_widen(h: u16) -> u32
    ensures { result ≡ widened h }
{
    bench_entries::floats::bench_widen(h)
}

#[unsafe(no_mangle)]
pub extern "C" fn bench_narrow(x: u32) -> u16
    ensures { result ≡ narrowed x }
{
    bench_entries::floats::bench_narrow(x)
}

#[unsafe(no_mangle)]
pub extern "C" fn bench_to_f32(h: u16) -> f32
    ensures { result ≡ float_of h }
{
    bench_entries::floats::bench_to_f32(h)
}

#[unsafe(no_mangle)]
pub extern "C" fn bench_from_f32(x: f32) -> u16
    ensures { result ≡ binary16_of x }
{
    bench_entries::floats::bench_from_f32(x)
}
