// Answers to requests.
ghost use Rattle.std.specs.Prelude.{◌≤◌};

use super::{names, put, signed};
use console::Console;
use shape::answer::Refusal;
use shape::part;

// What a request to write a message comes to; None if it is not well formed.
pub type Encoded = Option<Result<usize, Refusal>>;

// A name, after a space, and the equals sign.
fn label(console: &mut Console, out: &mut [u8], at: usize, name: &[u8]) -> usize {
    let a = put::byte(console, out, at, 32);
    let b = put::bytes(console, out, a, name);
    put::byte(console, out, b, 61)
}

// Internal. A refusal's number.
pub fn refused(console: &mut Console, out: &mut [u8], at: usize, number: u32) -> usize {
    put::decimal(console, out, at, number as u64)
}

// Internal. A number under its name.
pub fn number(console: &mut Console, out: &mut [u8], at: usize, name: &[u8], v: i64) -> usize {
    let a = label(console, out, at, name);
    signed::number(console, out, a, v)
}

// Internal. The same of a field of 64 bits without a sign.
pub fn unsigned(console: &mut Console, out: &mut [u8], at: usize, name: &[u8], v: u64) -> usize {
    let a = label(console, out, at, name);
    put::decimal(console, out, a, v)
}

// Internal. Success, and the numbers of a message under the first names.
pub fn numbers(
    console: &mut Console,
    out: &mut [u8],
    at: usize,
    names: &[u8],
    values: &[i64],
) -> usize {
    let mut o = put::byte(console, out, at, 48);
    for (i, v) in values.iter().enumerate() {
        o = number(console, out, o, names::nth(names, i), *v);
    }
    o
}

// Internal. A list under its name.
pub fn list(console: &mut Console, out: &mut [u8], at: usize, name: &[u8], s: &[u8]) -> usize {
    let a = label(console, out, at, name);
    put::list(console, out, a, s)
}

// Internal. A list of signed numbers under its name.
pub fn signed_list(
    console: &mut Console,
    out: &mut [u8],
    at: usize,
    name: &[u8],
    s: &[i64],
) -> usize {
    let a = label(console, out, at, name);
    signed::list(console, out, a, s)
}

// Internal. What was written, of which `message` has the bytes in front.
pub fn written(
    console: &mut Console,
    out: &mut [u8],
    at: usize,
    e: Encoded,
    message: &[u8],
) -> usize {
    match e {
        None => put::ill_formed(console, out, at),
        Some(w) => match w {
            Err(r) => refused(console, out, at, r.number()),
            Ok(n) => {
                let o = put::bytes(console, out, at, b"0 ");
                put::list(console, out, o, part::within(message, 0, n))
            }
        },
    }
}

// Internal. The length of the output buffer, at most 512.
pub fn room(n: u64) -> usize
    ensures { result ≤ 512 }
{
    n.min(512) as usize
}
