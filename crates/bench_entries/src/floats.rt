// The conversions of floats.
ghost use Rattle.std.specs.Prelude.{◌≡◌};
ghost use Rattle.binary16.specs.Convert.{widened, narrowed, float_of, binary16_of};

pub fn bench_widen(h: u16) -> u32
    ensures { result ≡ widened h }
{
    binary16::pattern::widen(h)
}

pub fn bench_narrow(x: u32) -> u16
    ensures { result ≡ narrowed x }
{
    binary16::pattern::narrow(x)
}

pub fn bench_to_f32(h: u16) -> f32
    ensures { result ≡ float_of h }
{
    binary16::float::to_f32(h)
}

pub fn bench_from_f32(x: f32) -> u16
    ensures { result ≡ binary16_of x }
{
    binary16::float::from_f32(x)
}
