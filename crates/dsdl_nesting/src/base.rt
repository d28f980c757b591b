// The nested type of a line (RULES 17.10), by its place in the line.
ghost use Rattle.std.specs.Prelude.{◌≡◌, List, ℕ, ◌≤◌, length, IfSome};
ghost use Rattle.dsdl_line.specs.Line.{line_of};
ghost use Rattle.dsdl_line.specs.inside.Places.{word_of};
ghost use Rattle.dsdl.specs.Form.{nested_in};
ghost use Rattle.dsdl_nesting.specs.inside.Bases.{nested_at, nested_by};

use dsdl_line::shape;
use dsdl_line::shape::Places;
use dsdl_text::class;
use dsdl_text::class::Class;
use dsdl_text::word::Word;
use dsdl_type::base as type_base;

// The word w as far as the line reaches.
fn within(line: &[u8], w: Word) -> Word
    ensures { (word_of line.now result ≡ word_of line.now w) × ((result.at ≤ result.end) × (result.end ≤ length line.now)) }
{
    let n = line.len();
    let at = w.at;
    let end = w.end;
    if n <= at {
        return Word { at: n, end: n };
    }
    if end <= at {
        return Word { at: at, end: at };
    }
    if n <= end {
        return Word { at: at, end: n };
    }
    w
}

// The nested type of a field with the type word w.
fn of_type(line: &[u8], w: Word) -> Option<Word>
    ensures { ((space : List ℕ) → nested_by space (word_of line.now w) ≡ nested_at space line.now result) × IfSome result (λ b. (b.at ≤ b.end) × (b.end ≤ length line.now)) }
{
    let v = within(line, w);
    let end = v.at + class::run(Class::Unbracketed, &line[v.at..v.end]);
    if type_base::is_nested(type_base::read(&line[v.at..end])) {
        Some(Word { at: v.at, end })
    } else {
        None
    }
}

// Internal. Where the text is in a line that names its nested type.
pub fn read(line: &[u8]) -> Option<Word>
    ensures { ((space : List ℕ) → nested_in space (line_of line.now) ≡ nested_at space line.now result) × IfSome result (λ b. (b.at ≤ b.end) × (b.end ≤ length line.now)) }
{
    match shape::read(line) {
        Places::Field(_, w, _) => of_type(line, w),
        _ => None,
    }
}
