// Signatures (RULES 17.11).
ghost use Rattle.std.specs.Prelude.{◌≡◌, true, false, cond, ℕ, ◌<◌, get_or};
ghost use Rattle.dsdl_line.specs.Line.{line_of};
ghost use Rattle.dsdl.specs.Definition.{lines_of};
ghost use Rattle.dsdl.specs.Form.{nested_in, nested_types};
ghost use Rattle.dsdl_given.specs.Given.{nested_of};
ghost use Rattle.dsdl_given.specs.inside.Places.{definition_at, given, Inside};
ghost use Rattle.dsdl_nesting.specs.Nesting.{all_given};
ghost use Rattle.dsdl_nesting.specs.Signature.{extended_by};
ghost use Rattle.dsdl_nesting.specs.inside.Kept.{value_of, Kept, Hashes, Signatures};

use super::index::PLACES;
use super::{base, index, marks, sets};
use checksum::crc64;
use dsdl_given::places;
use dsdl_given::places::{BOUNDS, DEFINITIONS};
use dsdl_text::{line, name};

fn in_line(
    source: &[u8],
    bounds: [usize; BOUNDS],
    n: usize,
    space: &[u8],
    line: &[u8],
    values: [u64; PLACES],
    h: u64,
) -> u64
    requires { Inside source.now bounds n }
    ensures { result ≡ extended_by (value_of 0 values (given source.now bounds n)) h (nested_in space.now (line_of line.now)) }
{
    match base::read(line) {
        None => h,
        Some(b) => {
            let i = index::find(source, bounds, n, space, &line[b.at..b.end]);
            crc64::extend(h, values[i])
        }
    }
}

fn in_text(
    source: &[u8],
    bounds: [usize; BOUNDS],
    n: usize,
    space: &[u8],
    text: &[u8],
    values: [u64; PLACES],
    hash: u64,
) -> u64
    requires { Inside source.now bounds n }
    ensures { result ≡ extended_by (value_of 0 values (given source.now bounds n)) hash (nested_types space.now (lines_of text.now)) }
{
    let mut h = hash;
    let mut at = 0;
    // A loop: where a line begins depends on where the one before it ends.
    loop {
        let end = line::end(text, at);
        h = in_line(source, bounds, n, space, &text[at..end], values, h);
        if end == text.len() {
            return h;
        }
        at = line::next(text, end);
    }
}

// The hash h of definition i extended by the values of its nested types.
fn of(
    source: &[u8],
    bounds: [usize; BOUNDS],
    n: usize,
    i: usize,
    values: [u64; PLACES],
    h: u64,
) -> u64
    requires { (i < n) × Inside source.now bounds n }
    ensures { result ≡ extended_by (value_of 0 values (given source.now bounds n)) h (nested_of (definition_at source.now bounds i)) }
{
    let name = places::name(source, bounds, i);
    let k = name::space(name);
    in_text(
        source,
        bounds,
        n,
        &name[0..k],
        places::text(source, bounds, i),
        values,
        h,
    )
}

// The same, unless it is worked out.
fn value(
    source: &[u8],
    bounds: [usize; BOUNDS],
    n: usize,
    i: usize,
    values: [u64; PLACES],
    h: u64,
    done: bool,
) -> u64
    requires { (i < n) × Inside source.now bounds n }
    ensures { result ≡ cond done (get_or values i 0) (extended_by (value_of 0 values (given source.now bounds n)) h (nested_of (definition_at source.now bounds i))) }
{
    if done {
        return values[i];
    }
    of(source, bounds, n, i, values, h)
}

// The same of all definitions.
fn next(
    source: &[u8],
    bounds: [usize; BOUNDS],
    n: usize,
    hashes: [u64; DEFINITIONS],
    values: [u64; PLACES],
    done: [bool; PLACES],
) -> [u64; PLACES]
    requires { Inside source.now bounds n }
    ensures { Kept 0 (λ (i : ℕ). cond (get_or done i false) (get_or values i 0) (extended_by (value_of 0 values (given source.now bounds n)) (get_or hashes i 0) (nested_of (definition_at source.now bounds i)))) 0 n n result }
{
    let mut r = [0u64; PLACES];
    for i in 0..n {
        r[i] = value(source, bounds, n, i, values, hashes[i], done[i]);
    }
    r
}

// Internal. The signatures of n definitions, from the hashes of their forms, level by level: one from which no chain has more than k is worked
// out at level k, and then kept.
pub fn all(
    source: &[u8],
    bounds: [usize; BOUNDS],
    n: usize,
    hashes: [u64; DEFINITIONS],
) -> [u64; PLACES]
    requires { Inside source.now bounds n × ((all_given (given source.now bounds n) ≡ true) × Hashes source.now bounds n hashes) }
    ensures { Signatures source.now bounds n result }
{
    let sets = sets::all(source, bounds, n);
    let none = [false; PLACES];
    let one = marks::next(sets, n, none);
    let two = marks::next(sets, n, one);
    let three = marks::next(sets, n, two);
    let zeros = [0u64; PLACES];
    let first = next(source, bounds, n, hashes, zeros, none);
    let second = next(source, bounds, n, hashes, first, one);
    let third = next(source, bounds, n, hashes, second, two);
    next(source, bounds, n, hashes, third, three)
}
