// The normalized form of a definition (RULES 17.9), line by line.
ghost use Rattle.std.specs.Prelude.{◌≡◌, true, ◌∷◌, ◌+◌, ◌^◌, ◌≤◌, length as length_of};
ghost use Rattle.bits.specs.Part.{splice};
ghost use Rattle.dsdl_text.specs.Names.{full_name};
ghost use Rattle.dsdl_type.specs.Base.{size_text};
ghost use Rattle.dsdl_type.specs.Size.{size_fits};
ghost use Rattle.dsdl_line.specs.Line.{line_of};
ghost use Rattle.dsdl_line.specs.inside.Places.{word_of};
ghost use Rattle.dsdl.specs.Definition.{lines_of};
ghost use Rattle.dsdl.specs.Form.{cast_form, type_form, line_form, lines_form, form_of};
ghost use Rattle.dsdl_form.specs.inside.Parts.{base_form, field_form};
ghost use Rattle.dsdl_form.specs.inside.Placed.{Fits, Placed};

use super::{place, size};
use dsdl_line::shape;
use dsdl_line::shape::{Cast, Places};
use dsdl_text::class::Class;
use dsdl_text::word::Word;
use dsdl_text::{class, line, name};
use dsdl_type::base;

// The word w of a line.
fn word_of(line: &[u8], w: Word) -> &[u8]
    ensures { result.now ≡ word_of line.now w }
{
    let at = w.at;
    let end = w.end;
    let n = line.len();
    if end <= at {
        return &line[0..0];
    }
    if n <= at {
        return &line[0..0];
    }
    if n < end {
        return &line[at..n];
    }
    &line[at..end]
}

fn cast(out: &mut [u8], at: usize, c: Cast) -> usize
    requires { Fits at (cast_form c) }
    ensures { Placed out.old out.new at result (cast_form c) }
{
    match c {
        Cast::Unsaid => place::text(out, at, b"saturated "),
        Cast::Saturated => place::text(out, at, b"saturated "),
        Cast::Truncated => place::text(out, at, b"truncated "),
    }
}

// The full name of the nested type b in a namespace.
fn full_name(out: &mut [u8], at: usize, space: &[u8], b: &[u8]) -> usize
    requires { Fits at (full_name space.now b.now) }
    ensures { Placed out.old out.new at result (full_name space.now b.now) }
{
    if name::has_dot(b) {
        return place::text(out, at, b);
    }
    let p = place::text(out, at, space);
    place::text(out, p, b)
}

// A type without its size.
fn sizeless(out: &mut [u8], at: usize, space: &[u8], c: Cast, b: &[u8]) -> usize
    requires { Fits at (base_form space.now c b.now) }
    ensures { Placed out.old out.new at result (base_form space.now c b.now) }
{
    if base::is_nested(base::read(b)) {
        return full_name(out, at, space, b);
    }
    let p = cast(out, at, c);
    place::text(out, p, b)
}

// A type word.
fn type_of(out: &mut [u8], at: usize, space: &[u8], c: Cast, w: &[u8]) -> usize
    requires { (length_of w.now ≤ 4096) × ((size_fits (size_text w.now) ≡ true) × Fits at (type_form space.now c w.now)) }
    ensures { Placed out.old out.new at result (type_form space.now c w.now) }
{
    let n = class::run(Class::Unbracketed, w);
    let p = sizeless(out, at, space, c, &w[0..n]);
    size::write(out, p, &w[n..])
}

// A line with a word.
fn padding(out: &mut [u8], at: usize, w: &[u8]) -> usize
    requires { Fits at (10 ∷ w.now) }
    ensures { Placed out.old out.new at result (10 ∷ w.now) }
{
    let p = place::text(out, at, b"\n");
    place::text(out, p, w)
}

// A line with a type and a name.
fn field(out: &mut [u8], at: usize, space: &[u8], c: Cast, w: &[u8], x: &[u8]) -> usize
    requires { (length_of w.now ≤ 4096) × ((size_fits (size_text w.now) ≡ true) × Fits at (field_form space.now c w.now x.now)) }
    ensures { Placed out.old out.new at result (field_form space.now c w.now x.now) }
{
    let p = place::text(out, at, b"\n");
    let q = type_of(out, p, space, c, w);
    let s = place::text(out, q, b" ");
    place::text(out, s, x)
}

// What a line adds.
fn added(out: &mut [u8], at: usize, space: &[u8], l: &[u8]) -> usize
    requires { (length_of l.now ≤ 4096) × Fits at (line_form space.now (line_of l.now)) }
    ensures { Placed out.old out.new at result (line_form space.now (line_of l.now)) }
{
    match shape::read(l) {
        Places::Nothing => at,
        Places::Marker => place::text(out, at, b"\n---"),
        Places::Union => place::text(out, at, b"\n@union"),
        Places::Padding(w) => padding(out, at, word_of(l, w)),
        Places::Field(c, w, x) => field(out, at, space, c, word_of(l, w), word_of(l, x)),
        Places::Constant(_, _, _) => at,
        Places::Wrong => at,
    }
}

// What all lines of a text add.
fn lines(out: &mut [u8], at: usize, space: &[u8], text: &[u8]) -> usize
    requires { (length_of text.now ≤ 4096) × Fits at (lines_form space.now (lines_of text.now)) }
    ensures { Placed out.old out.new at result (lines_form space.now (lines_of text.now)) }
{
    let mut p = at;
    let mut from = 0;
    let mut end = line::end(text, 0);
    // A while: how far it goes on depends on where the lines end.
    while end < text.len() {
        p = added(out, p, space, &text[from..end]);
        from = line::next(text, end);
        end = line::end(text, from);
    }
    added(out, p, space, &text[from..end])
}

// The form, as far as there is room.
fn place(name: &[u8], text: &[u8], out: &mut [u8], at: usize) -> usize
    requires { (length_of text.now ≤ 4096) × Fits at (form_of name.now text.now) }
    ensures { Placed out.old out.new at result (form_of name.now text.now) }
{
    let n = name::space(name);
    let p = place::text(out, at, name);
    lines(out, p, &name[0..n], text)
}

// Internal. The length of a definition's form.
pub fn length(name: &[u8], text: &[u8]) -> usize
    requires { (length_of name.now ≤ 80) × (length_of text.now ≤ 4096) }
    ensures { (result ≡ length_of (form_of name.now text.now)) × (result ≤ 2 ^ 19) }
{
    let mut none = [0u8; 1];
    place(name, text, &mut none, 0)
}

// Internal. A definition's form from `at` on, and the place past it.
pub fn write(name: &[u8], text: &[u8], out: &mut [u8], at: usize) -> usize
    requires { (length_of text.now ≤ 4096) × (at + length_of (form_of name.now text.now) ≤ length_of out.old) }
    ensures { (out.new ≡ splice out.old at (form_of name.now text.now)) × (result ≡ at + length_of (form_of name.now text.now)) }
{
    place(name, text, out, at)
}
