// The words of a line (RULES 17.2), by their places in it.
ghost use Rattle.std.specs.Prelude.{◌≡◌, ◌&&◌, ◌≤◌, length};
ghost use Rattle.dsdl_text.specs.Text.{same};
ghost use Rattle.dsdl_text.specs.Words.{ended};
ghost use Rattle.dsdl_text.specs.inside.Words.{part};
ghost use Rattle.dsdl_type.specs.Base.{base_of, is_void};
ghost use Rattle.dsdl_line.specs.Line.{is_unsaid, field_type, constant_type, attribute as attribute_of, cast_attribute, shape_with, shape_of};
ghost use Rattle.dsdl_line.specs.inside.Places.{word_of, meaning, constant_with, is_marker_at};

use dsdl_text::class::Class;
use dsdl_text::word::Word;
use dsdl_text::{class, name, text, word};
use dsdl_type::{base, size};

#[derive(Clone, Copy)]
pub enum Cast {
    Unsaid,
    Saturated,
    Truncated,
}

// What a line is: padding with its word; a field with cast mode, type word and name; a constant with type word, name and initializer.
#[derive(Drop)]
pub enum Places {
    Nothing,
    Marker,
    Union,
    Padding(Word),
    Field(Cast, Word, Word),
    Constant(Word, Word, Word),
    Wrong,
}

fn is_unsaid(c: Cast) -> bool
    ensures { result ≡ is_unsaid c }
{
    matches!(c, Cast::Unsaid)
}

// A type that a field may have.
fn is_field_type(c: Cast, w: &[u8]) -> bool
    ensures { result ≡ field_type c w.now }
{
    let n = class::run(Class::Unbracketed, w);
    if !size::fits(&w[n..]) {
        return false;
    }
    let b = base::read(&w[0..n]);
    if base::is_primitive(b) {
        return true;
    }
    if !is_unsaid(c) {
        return false;
    }
    base::is_nested(b)
}

// A type that a constant may have.
fn is_constant_type(w: &[u8]) -> bool
    ensures { result ≡ constant_type w.now }
{
    let n = class::run(Class::Unbracketed, w);
    if n < w.len() {
        return false;
    }
    base::is_primitive(base::read(&w[0..n]))
}

// Nothing but blanks is left.
fn is_ended(line: &[u8], from: usize, stop: usize) -> bool
    requires { (from ≤ stop) × (stop ≤ length line.now) }
    ensures { result ≡ ended (part line.now from stop) }
{
    class::all(Class::Blank, &line[from..stop])
}

// The word w is the text t.
fn is_text(line: &[u8], w: Word, t: &[u8]) -> bool
    requires { (w.at ≤ w.end) × (w.end ≤ length line.now) }
    ensures { result ≡ same (word_of line.now w) t.now }
{
    let at = w.at;
    let end = w.end;
    text::same(&line[at..end], t)
}

// A constant, whose name x is followed by y, the next word.
fn constant(line: &[u8], w: Word, x: Word, y: Word, stop: usize) -> Places
    requires { ((w.at ≤ w.end) × (w.end ≤ length line.now)) × ((y.at ≤ y.end) × (y.end ≤ length line.now)) }
    ensures { meaning line.now result ≡ constant_with line.now w x y stop }
{
    let at = w.at;
    let end = w.end;
    if !is_constant_type(&line[at..end]) {
        return Places::Wrong;
    }
    if !is_text(line, y, b"=") {
        return Places::Wrong;
    }
    let from = y.end;
    Places::Constant(
        w,
        x,
        Word {
            at: from,
            end: stop,
        },
    )
}

// A field or a constant of the type word w, before `stop`.
fn attribute(line: &[u8], c: Cast, w: Word, stop: usize) -> Places
    requires { (w.at ≤ w.end) × ((w.end ≤ stop) × (stop ≤ length line.now)) }
    ensures { meaning line.now result ≡ attribute_of c (word_of line.now w) (part line.now w.end stop) }
{
    let at = w.at;
    let end = w.end;
    let x = word::next(line, end, stop);
    let from = x.at;
    let past = x.end;
    if !name::is_name(&line[from..past]) {
        return Places::Wrong;
    }
    if !is_ended(line, past, stop) {
        return constant(line, w, x, word::next(line, past, stop), stop);
    }
    if is_field_type(c, &line[at..end]) {
        return Places::Field(c, w, x);
    }
    Places::Wrong
}

// An attribute behind a cast mode.
fn cast_attribute(line: &[u8], c: Cast, from: usize, stop: usize) -> Places
    requires { (from ≤ stop) × (stop ≤ length line.now) }
    ensures { meaning line.now result ≡ cast_attribute c (part line.now from stop) }
{
    let w = word::next(line, from, stop);
    attribute(line, c, w, stop)
}

// The word w is the text t, and the last one.
fn is_alone(line: &[u8], w: Word, stop: usize, t: &[u8]) -> bool
    requires { (w.at ≤ w.end) × ((w.end ≤ stop) × (stop ≤ length line.now)) }
    ensures { result ≡ same (word_of line.now w) t.now && ended (part line.now w.end stop) }
{
    if !is_text(line, w, t) {
        return false;
    }
    let end = w.end;
    is_ended(line, end, stop)
}

// The word w is a void type, and the last one.
fn is_padding(line: &[u8], w: Word, stop: usize) -> bool
    requires { (w.at ≤ w.end) × ((w.end ≤ stop) × (stop ≤ length line.now)) }
    ensures { result ≡ is_void (base_of (word_of line.now w)) && ended (part line.now w.end stop) }
{
    let at = w.at;
    let end = w.end;
    if !base::is_void(base::read(&line[at..end])) {
        return false;
    }
    is_ended(line, end, stop)
}

// A line by its first word w.
fn by_first(line: &[u8], w: Word, stop: usize) -> Places
    requires { (w.at ≤ w.end) × ((w.end ≤ stop) × (stop ≤ length line.now)) }
    ensures { meaning line.now result ≡ shape_with (word_of line.now w) (part line.now w.end stop) }
{
    let end = w.end;
    if is_alone(line, w, stop, b"---") {
        return Places::Marker;
    }
    if is_alone(line, w, stop, b"@union") {
        return Places::Union;
    }
    if is_text(line, w, b"saturated") {
        return cast_attribute(line, Cast::Saturated, end, stop);
    }
    if is_text(line, w, b"truncated") {
        return cast_attribute(line, Cast::Truncated, end, stop);
    }
    if is_padding(line, w, stop) {
        return Places::Padding(w);
    }
    attribute(line, Cast::Unsaid, w, stop)
}

// Internal. What a line is, by the places of its words; the value of a constant is not judged.
pub fn read(line: &[u8]) -> Places
    ensures { meaning line.now result ≡ shape_of line.now }
{
    let stop = class::run(Class::Bare, line);
    if is_ended(line, 0, stop) {
        return Places::Nothing;
    }
    let w = word::next(line, 0, stop);
    by_first(line, w, stop)
}

// Internal. It is the response marker.
pub fn is_marker(p: Places) -> bool
    ensures { result ≡ is_marker_at p }
{
    matches!(p, Places::Marker)
}
