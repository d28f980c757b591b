// Which definitions are nested in which (RULES 17.10): a row of marks for each definition.
ghost use Rattle.std.specs.Prelude.{◌≡◌, ◌<◌};
ghost use Rattle.dsdl_line.specs.Line.{line_of};
ghost use Rattle.dsdl.specs.Definition.{lines_of};
ghost use Rattle.dsdl.specs.Form.{nested_in, nested_types};
ghost use Rattle.dsdl_given.specs.Given.{nested_of};
ghost use Rattle.dsdl_given.specs.inside.Places.{definition_at, given, Inside};
ghost use Rattle.dsdl_nesting.specs.inside.Sets.{place_in, marked_by, Nested};

use super::index::PLACES;
use super::{base, index};
use dsdl_given::places;
use dsdl_given::places::BOUNDS;
use dsdl_text::{line, name};

// Eight rows.
pub const SETS: usize = 72;

fn in_line(
    source: &[u8],
    bounds: [usize; BOUNDS],
    n: usize,
    i: usize,
    space: &[u8],
    line: &[u8],
    sets: &mut [bool; SETS],
)
    requires { (i < n) × Inside source.now bounds n }
    ensures { sets.new ≡ marked_by (place_in i (given source.now bounds n)) sets.old (nested_in space.now (line_of line.now)) }
{
    if let Some(b) = base::read(line) {
        let j = index::find(source, bounds, n, space, &line[b.at..b.end]);
        sets[i * PLACES + j] = true;
    }
}

fn in_text(
    source: &[u8],
    bounds: [usize; BOUNDS],
    n: usize,
    i: usize,
    space: &[u8],
    text: &[u8],
    sets: &mut [bool; SETS],
)
    requires { (i < n) × Inside source.now bounds n }
    ensures { sets.new ≡ marked_by (place_in i (given source.now bounds n)) sets.old (nested_types space.now (lines_of text.now)) }
{
    let mut at = 0;
    // A loop: where a line begins depends on where the one before it ends.
    loop {
        let end = line::end(text, at);
        in_line(source, bounds, n, i, space, &text[at..end], sets);
        if end == text.len() {
            return;
        }
        at = line::next(text, end);
    }
}

// Row i: the nested types of definition i.
fn of(source: &[u8], bounds: [usize; BOUNDS], n: usize, i: usize, sets: &mut [bool; SETS])
    requires { (i < n) × Inside source.now bounds n }
    ensures { sets.new ≡ marked_by (place_in i (given source.now bounds n)) sets.old (nested_of (definition_at source.now bounds i)) }
{
    let name = places::name(source, bounds, i);
    let k = name::space(name);
    in_text(
        source,
        bounds,
        n,
        i,
        &name[0..k],
        places::text(source, bounds, i),
        sets,
    );
}

// Internal. For each definition, which are nested in it.
pub fn all(source: &[u8], bounds: [usize; BOUNDS], n: usize) -> [bool; SETS]
    requires { Inside source.now bounds n }
    ensures { Nested source.now bounds n n result }
{
    let mut sets = [false; SETS];
    for i in 0..n {
        of(source, bounds, n, i, &mut sets);
    }
    sets
}
