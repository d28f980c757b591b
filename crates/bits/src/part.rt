// Copies between slices. The parts that the layers above read and write are spans and splices of lists.
ghost use Rattle.std.specs.Prelude.{◌≡◌, ◌+◌, ◌≤◌, length};
ghost use Rattle.bits.specs.Part.{span, splice};

// Internal. The bytes of src, stored from `at` on.
pub fn copy_at(dst: &mut [u8], at: usize, src: &[u8])
    requires { at + length src.now ≤ length dst.old }
    ensures { dst.new ≡ splice dst.old at src.now }
{
    dst[at..at + src.len()].copy_from_slice(src);
}

// Internal. The n bytes of src from `from` on, stored from `at` on.
pub fn copy_span(dst: &mut [u8], at: usize, src: &[u8], from: usize, n: usize)
    requires { (from + n ≤ length src.now) × (at + n ≤ length dst.old) }
    ensures { dst.new ≡ splice dst.old at (span src.now from n) }
{
    copy_at(dst, at, &src[from..from + n]);
}

// Internal. The same as `copy_at`, for the bytes of a frame. Seven is what most frames carry, and a copy of a known length needs no call.
pub fn copy_few(dst: &mut [u8], at: usize, src: &[u8])
    requires { at + length src.now ≤ length dst.old }
    ensures { dst.new ≡ splice dst.old at src.now }
{
    if src.len() == 7 {
        copy_span(dst, at, src, 0, 7);
        return;
    }
    copy_at(dst, at, src);
}
