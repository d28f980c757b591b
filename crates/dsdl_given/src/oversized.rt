// 43: too many definitions, one that is too long, or a name twice (RULES 17.12).
ghost use Rattle.std.specs.Prelude.{◌≡◌, ◌+◌, ◌<◌};
ghost use Rattle.dsdl.specs.Definition.{is_among};
ghost use Rattle.dsdl_given.specs.Given.{lengths_in, name_twice, too_long, oversized as is_oversized};
ghost use Rattle.dsdl_given.specs.inside.Places.{definition_at, given, names_from, Inside};

use super::places;
use super::places::{BOUNDS, DEFINITIONS};
use dsdl_text::text;

const TEXT: usize = 4096;

// A text is too long, or lengths reach past the source, which has `size` bytes.
fn too_long(size: usize, lengths: &[u8]) -> bool
    ensures { result ≡ too_long size (lengths_in lengths.now) }
{
    let mut left = size;
    for i in 0..lengths.len() / 8 {
        let name = places::length(lengths, i * 2);
        let text = places::length(lengths, i * 2 + 1);
        if TEXT < text {
            return true;
        }
        if left < name + text {
            return true;
        }
        left -= name + text;
    }
    false
}

// A definition after i, of n, has its name.
fn is_again(source: &[u8], bounds: [usize; BOUNDS], i: usize, n: usize) -> bool
    requires { (i < n) × Inside source.now bounds n }
    ensures { result ≡ is_among (definition_at source.now bounds i).name (names_from source.now bounds (i + 1) n) }
{
    let name = places::name(source, bounds, i);
    for j in i + 1..n {
        if text::same(name, places::name(source, bounds, j)) {
            return true;
        }
    }
    false
}

// Two of the n definitions have the same name.
fn name_twice(source: &[u8], bounds: [usize; BOUNDS], n: usize) -> bool
    requires { Inside source.now bounds n }
    ensures { result ≡ name_twice (given source.now bounds n) }
{
    for i in 0..n {
        if is_again(source, bounds, i, n) {
            return true;
        }
    }
    false
}

// Internal. 43 answers.
pub fn is_oversized(source: &[u8], lengths: &[u8]) -> bool
    ensures { result ≡ is_oversized source.now (lengths_in lengths.now) }
{
    let n = lengths.len() / 8;
    if DEFINITIONS < n {
        return true;
    }
    if too_long(source.len(), lengths) {
        return true;
    }
    name_twice(source, places::bounds(lengths, n), n)
}
