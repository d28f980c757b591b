// Messages of numbers alone, by hand: their two calls.
ghost use Rattle.std.specs.Prelude.{◌^◌, ◌<◌, ◌≤◌, length};

use codec_text::answer::Encoded;
use codec_text::{answer, fields};
use console::Console;
use shape::answer::Refusal;

// Internal. A message of N numbers.
pub trait Numbers<const N: usize>: Sized {
    // the names of its fields
    const NAMES: &'static [u8];

    fn read(payload: &[u8]) -> Result<Self, Refusal>;

    fn numbers(self) -> [i64; N];

    fn of_numbers(v: [i64; N]) -> Self;

    fn write(self, out: &mut [u8]) -> Result<usize, Refusal>;
}

// Internal.
pub fn decode<const N: usize, T: Numbers<N>>(
    console: &mut Console,
    payload: &[u8],
    out: &mut [u8],
    at: usize,
) -> usize
    requires { N < 2 ^ 60 }
{
    match T::read(payload) {
        Err(r) => answer::refused(console, out, at, r.number()),
        Ok(x) => {
            let v = x.numbers();
            answer::numbers(console, out, at, T::NAMES, &v)
        }
    }
}

// Internal.
pub fn encode<const N: usize, T: Numbers<N>>(
    words: &[u8],
    bytes: &mut [u8],
    out: &mut [u8],
) -> Encoded
    requires { (N < 2 ^ 60) × (length words.now ≤ length bytes.old) }
{
    let mut v = [0i64; N];
    fields::read(T::NAMES, words, &mut v, bytes)?;
    Some(T::of_numbers(v).write(out))
}
