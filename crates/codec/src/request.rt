// A line as a request: what is asked, of which type, and the rest.
ghost use Rattle.std.specs.Prelude.{◌≤◌, length};

use super::{decode, encode};
use codec_text::put;
use console::Console;

// What comes after the verb: a type's name, and the rest after a space.
fn of_type(console: &mut Console, encodes: bool, rest: &[u8], out: &mut [u8], at: usize) -> usize
    requires { length rest.now ≤ 8192 }
{
    let e = digits::find(rest, 0, 32);
    if e == rest.len() {
        return put::ill_formed(console, out, at);
    }
    if encodes {
        return encode::answer(console, &rest[0..e], &rest[e + 1..], out, at);
    }
    decode::answer(console, &rest[0..e], &rest[e + 1..], out, at)
}

// Internal. The answer to a line.
pub fn answer(console: &mut Console, line: &[u8], out: &mut [u8], at: usize) -> usize
    requires { length line.now ≤ 8192 }
{
    let e = digits::find(line, 0, 32);
    if e == line.len() {
        return put::ill_formed(console, out, at);
    }
    let verb = &line[0..e];
    let rest = &line[e + 1..];
    if verb == b"decode".as_slice() {
        return of_type(console, false, rest, out, at);
    }
    if verb == b"encode".as_slice() {
        return of_type(console, true, rest, out, at);
    }
    put::ill_formed(console, out, at)
}
