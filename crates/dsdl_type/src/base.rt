// The base of a type (RULES 17.3).
ghost use Rattle.std.specs.Prelude.{◌≡◌, ◌&&◌, ◌||◌, ◌≤◌, eqb};
ghost use Rattle.std.specs.Option.{unwrap_or};
ghost use Rattle.dsdl_text.specs.Class.{within};
ghost use Rattle.dsdl_text.specs.Text.{chars, same as same_text};
ghost use Rattle.dsdl_type.specs.Base.{bits_of, primitive as primitive_of, nested as nested_of, base_of, is_primitive, is_nested, is_void};

use dsdl_number::integer;
use dsdl_text::class::Class;
use dsdl_text::{class, name, text};

// A primitive type with its bits, a void type, a nested type, or none.
#[derive(Clone, Copy)]
pub enum Base {
    Boolean,
    Signed(u32),
    Unsigned(u32),
    Floating(u32),
    Void(u32),
    Nested,
    Unknown,
}

// The number of bits behind a type's letters.
fn bits(s: &[u8]) -> Option<u32>
    ensures { (unwrap_or result 0 ≡ bits_of s.now) × (unwrap_or result 0 ≤ 99) }
{
    if s.len() == 0 {
        return None;
    }
    if 2 < s.len() {
        return None;
    }
    if !class::is(Class::Positive, s[0]) {
        return None;
    }
    if !class::all(Class::Decimal, s) {
        return None;
    }
    Some(integer::capped(s, 10) as u32)
}

fn is_of(letters: &[u8], word: &[u8], least: u32, bits: u32) -> bool
    ensures { result ≡ same_text letters.now word.now && within least 64 bits }
{
    if !text::same(letters, word) {
        return false;
    }
    if bits < least {
        return false;
    }
    bits <= 64
}

fn is_float(letters: &[u8], bits: u32) -> bool
    ensures { result ≡ same_text letters.now (chars "float") && (eqb bits 16 || (eqb bits 32 || eqb bits 64)) }
{
    if !text::same(letters, b"float") {
        return false;
    }
    if bits == 16 {
        return true;
    }
    if bits == 32 {
        return true;
    }
    bits == 64
}

// The type of these letters and bits, if there is one.
fn primitive(letters: &[u8], bits: u32, other: Base) -> Base
    requires { bits ≤ 99 }
    ensures { result ≡ primitive_of letters.now bits other }
{
    if is_of(letters, b"int", 2, bits) {
        return Base::Signed(bits);
    }
    if is_of(letters, b"uint", 2, bits) {
        return Base::Unsigned(bits);
    }
    if is_float(letters, bits) {
        return Base::Floating(bits);
    }
    if is_of(letters, b"void", 1, bits) {
        return Base::Void(bits);
    }
    other
}

fn nested(s: &[u8]) -> Base
    ensures { result ≡ nested_of s.now }
{
    if !name::is_dotted(s) {
        return Base::Unknown;
    }
    if !name::has_dot(s) {
        return Base::Nested;
    }
    if s.len() <= name::NAME {
        return Base::Nested;
    }
    Base::Unknown
}

// Internal. What the base of a type word is.
pub fn read(s: &[u8]) -> Base
    ensures { result ≡ base_of s.now }
{
    if text::same(s, b"bool") {
        return Base::Boolean;
    }
    let n = class::run(Class::Letter, s);
    let other = nested(s);
    match bits(&s[n..]) {
        Some(w) => primitive(&s[0..n], w, other),
        None => other,
    }
}

// Internal. A primitive type that is not void.
pub fn is_primitive(b: Base) -> bool
    ensures { result ≡ is_primitive b }
{
    matches!(
        b,
        Base::Boolean | Base::Signed(_) | Base::Unsigned(_) | Base::Floating(_)
    )
}

// Internal. A nested type.
pub fn is_nested(b: Base) -> bool
    ensures { result ≡ is_nested b }
{
    matches!(b, Base::Nested)
}

// Internal. A void type.
pub fn is_void(b: Base) -> bool
    ensures { result ≡ is_void b }
{
    matches!(b, Base::Void(_))
}
