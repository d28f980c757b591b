// The first line at fault of a text (RULES 17.8).
ghost use Rattle.std.specs.Prelude.{◌≡◌, suc, ◌*◌, ◌≤◌, ◌<◌, length};
ghost use Rattle.dsdl_text.specs.Words.{skip};
ghost use Rattle.dsdl_number.specs.Number.{initializer};
ghost use Rattle.dsdl_type.specs.Base.{base_text, base_of};
ghost use Rattle.dsdl_type.specs.Constant.{fits as fits_in};
ghost use Rattle.dsdl_line.specs.inside.Places.{word_of};
ghost use Rattle.dsdl.specs.Definition.{text_max, fault_in};
ghost use Rattle.dsdl.specs.inside.Names.{names_max, Kept};
ghost use Rattle.dsdl.specs.inside.Reading.{after_name, after_text, faulty, end_fault, after_marker, after_union, after_padding, Bounded, Ready, Step};

use super::names;
use super::names::NAMES;
use dsdl_line::shape;
use dsdl_line::shape::Places;
use dsdl_text::class::Class;
use dsdl_text::word::Word;
use dsdl_text::{class, line};
use dsdl_type::{base, initializer};

// What is read so far: the line at fault, or 0; whether a marker came; of the part, the line of its union directive, or 0, and how many
// attributes, fields and names it has.
#[derive(Clone, Copy)]
pub struct Reading {
    pub fault: usize,
    pub response: bool,
    pub directive: usize,
    pub attributes: usize,
    pub fields: usize,
    pub names: usize,
}

// The fault that shows at a part's end.
fn at_end(s: Reading) -> usize
    ensures { result ≡ end_fault s }
{
    if s.fields < 2 {
        return s.directive;
    }
    0
}

// The line n is at fault.
fn at_fault(s: Reading, n: usize) -> Reading
    ensures { result ≡ faulty s n }
{
    let mut r = s;
    r.fault = n;
    r
}

// After a marker on line n.
fn marker(s: Reading, n: usize) -> Reading
    ensures { result ≡ after_marker s n }
{
    if s.response {
        return at_fault(s, n);
    }
    Reading {
        fault: at_end(s),
        response: true,
        directive: 0,
        attributes: 0,
        fields: 0,
        names: 0,
    }
}

// After a union directive on line n.
fn directive(s: Reading, n: usize) -> Reading
    ensures { result ≡ after_union s n }
{
    if 0 < s.directive {
        return at_fault(s, n);
    }
    if 0 < s.attributes {
        return at_fault(s, n);
    }
    Reading {
        fault: 0,
        response: s.response,
        directive: n,
        attributes: s.attributes,
        fields: s.fields,
        names: s.names,
    }
}

// After padding.
fn padding(s: Reading) -> Reading
    requires { (s.attributes ≤ text_max) × (s.fields ≤ text_max) }
    ensures { result ≡ after_padding s }
{
    Reading {
        fault: 0,
        response: s.response,
        directive: s.directive,
        attributes: s.attributes + 1,
        fields: s.fields + 1,
        names: s.names,
    }
}

// After an attribute with the name w on line n, with `fields` fields in all.
fn named(
    t: &[u8],
    w: Word,
    n: usize,
    s: Reading,
    fields: usize,
    seen: &mut [u32; NAMES],
    marks: &mut [u8; NAMES],
) -> Reading
    requires kept { Kept t.now seen.old marks.old s.names × ((s.names < names_max) × (Bounded n s × ((fields ≤ n) × (n ≤ suc text_max)))) }
    requires at_le_end { (w.at ≤ w.end) × ((w.end ≤ length t.now) × (length t.now ≤ text_max)) }
    ensures { Step t.now seen.new marks.new result n (2 * suc s.names) (after_name t.now seen.old s n fields w) }
{
    let at = w.at;
    let end = w.end;
    let i = s.names;
    let m = names::mark_at(&t[at..end]);
    if names::is_taken(t, seen, marks, i, &t[at..end], m) {
        return at_fault(s, n);
    }
    seen[i] = names::packed(w);
    marks[m] = 1;
    Reading {
        fault: 0,
        response: s.response,
        directive: s.directive,
        attributes: s.attributes + 1,
        fields: fields,
        names: i + 1,
    }
}

// The value of a constant, by its type word w and what follows the equals sign, is one that its type holds.
fn holds(l: &[u8], w: Word, i: Word) -> bool
    ensures { result ≡ fits_in (base_of (base_text (word_of l.now w))) (initializer (skip (word_of l.now i))) }
{
    let v = names::within(l, w);
    let j = names::within(l, i);
    let at = v.at;
    let end = v.end;
    let past = at + class::run(Class::Unbracketed, &l[at..end]);
    let from = j.at;
    let stop = j.end;
    let start = from + class::run(Class::Blank, &l[from..stop]);
    initializer::fits(base::read(&l[at..past]), &l[start..stop])
}

// After line n, from `at` to `end`.
fn after(
    t: &[u8],
    at: usize,
    end: usize,
    n: usize,
    s: Reading,
    seen: &mut [u32; NAMES],
    marks: &mut [u8; NAMES],
) -> Reading
    requires { Ready t.now seen.old marks.old at n s × ((at ≤ end) × (end ≤ length t.now)) }
    ensures { Step t.now seen.new marks.new result n (suc end) (after_text t.now seen.old s n at end) }
{
    let p = shape::read(&t[at..end]);
    match p {
        Places::Nothing => s,
        Places::Marker => marker(s, n),
        Places::Union => directive(s, n),
        Places::Padding(_) => padding(s),
        Places::Field(_, _, x) => named(
            t,
            names::placed(t, at, end, x),
            n,
            s,
            s.fields + 1,
            seen,
            marks,
        ),
        Places::Constant(w, x, i) => {
            if !holds(&t[at..end], w, i) {
                return at_fault(s, n);
            }
            named(t, names::placed(t, at, end, x), n, s, s.fields, seen, marks)
        }
        Places::Wrong => at_fault(s, n),
    }
}

// Internal. The first line at fault of a text, 0 if there is none.
pub fn line(t: &[u8]) -> usize
    requires { length t.now ≤ text_max }
    ensures { (result ≡ fault_in t.now) × (result ≤ suc text_max) }
{
    let mut seen = [0u32; NAMES];
    let mut marks = [0u8; NAMES];
    let mut s = Reading {
        fault: 0,
        response: false,
        directive: 0,
        attributes: 0,
        fields: 0,
        names: 0,
    };
    let mut at = 0;
    let mut n = 1;
    // A loop: how far it goes on depends on where the lines end.
    loop {
        let end = line::end(t, at);
        s = after(t, at, end, n, s, &mut seen, &mut marks);
        if 0 < s.fault {
            return s.fault;
        }
        if t.len() <= end {
            return at_end(s);
        }
        at = line::next(t, end);
        n += 1;
    }
}
