// Where the names and texts of the definitions are in the source (RULES 17.12).
ghost use Rattle.std.specs.Prelude.{◌≡◌, ◌+◌, ◌*◌, ◌≤◌, ◌<◌, length};
ghost use Rattle.dsdl_given.specs.Given.{definition_max, length_at};
ghost use Rattle.dsdl.specs.Definition.{text_max};
ghost use Rattle.dsdl_given.specs.inside.Places.{definition_at, Bounds, Holds};

use bits::le;

pub const DEFINITIONS: usize = 8;

// Of eight definitions, each with a name and a text.
pub const BOUNDS: usize = 17;

// Internal. Length k, of four bytes.
pub fn length(lengths: &[u8], k: usize) -> usize
    requires { k * 4 + 4 ≤ length lengths.now }
    ensures { (result ≡ length_at lengths.now k) × (result < 4294967296) }
{
    le::get_u32(lengths, k * 4) as usize
}

// Internal. The bounds of n definitions: name i begins at bound 2 i, its text at the next one, and ends at the one after.
pub fn bounds(lengths: &[u8], n: usize) -> [usize; BOUNDS]
    requires { (n ≤ definition_max) × (n * 8 ≤ length lengths.now) }
    ensures { Bounds (length_at lengths.now) result (n * 2) }
{
    let mut ends = [0usize; BOUNDS];
    let mut at = 0;
    for k in 0..n * 2 {
        at += length(lengths, k);
        ends[k + 1] = at;
    }
    ends
}

// Internal. The name of definition i.
pub fn name(source: &[u8], bounds: [usize; BOUNDS], i: usize) -> &[u8]
    requires { Holds source.now bounds i }
    ensures { result.now ≡ (definition_at source.now bounds i).name }
{
    let k = i * 2;
    let at = bounds[k];
    let end = bounds[k + 1];
    &source[at..end]
}

// Internal. The text of definition i.
pub fn text(source: &[u8], bounds: [usize; BOUNDS], i: usize) -> &[u8]
    requires { Holds source.now bounds i }
    ensures { (result.now ≡ (definition_at source.now bounds i).text) × (length result.now ≤ text_max) }
{
    let k = i * 2 + 1;
    let at = bounds[k];
    let end = bounds[k + 1];
    &source[at..end]
}
