// The value of a parameter (RULES 10.11): uavcan.protocol.param.Value, a union of five cases, and NumericValue, of the first three of them.
ghost use Rattle.std.specs.Prelude.{◌≡◌, ◌+◌, ◌*◌, ◌-◌, ◌≤◌, ◌<◌, ltb, length};
ghost use Rattle.bits.specs.Order.{store};
ghost use Rattle.shape.specs.Answer.{numbered, answer_of};
ghost use Rattle.shape.specs.Shape.{tag_width};
ghost use Rattle.protocol_param.specs.Value.{value_of_tag, size_of, tag_at, value_at, text_length, text_in, size_at};
ghost use Rattle.protocol_param.specs.inside.Value.{sized, tag_of, text_bits, content_bits, union_bits, text_fits};

use bits::{field, width};
use shape::answer::Refusal;
use shape::{number, part};

// A number is in the value itself. A text is beside it: a slice for a writer, a place from a reader.
#[derive(Clone, Copy)]
pub enum Value {
    Empty,
    Integer(i64),
    // the 32 bits of a float
    Real(u32),
    Boolean(i64),
    Text,
    // A tag that no case has. No reader gives it, and writers refuse it with 27.
    Unknown,
}

// The value of the case with that tag, made of what is given for each case.
pub fn of_tag(tag: i64, integer_value: i64, real_value: u32, boolean_value: i64) -> Value
    ensures { result ≡ value_of_tag tag integer_value real_value boolean_value }
{
    match tag {
        0 => Value::Empty,
        1 => Value::Integer(integer_value),
        2 => Value::Real(real_value),
        3 => Value::Boolean(boolean_value),
        4 => Value::Text,
        _ => Value::Unknown,
    }
}

// ── reading: s is the payload from the byte on whose lowest bits are the tag ──

// The tag of a union of so many cases; 0 where there is none.
fn tag(s: &[u8], cases: u64) -> u64
    requires { (2 ≤ cases) × (cases ≤ 5) }
    ensures { result ≡ tag_at cases s.now }
{
    if s.len() < 1 {
        return 0;
    }
    let w = width::width(cases - 1) as usize;
    field::read(s, 8 - w, w)
}

// What the text's length field says; 0 where there is none, and of what is no text.
fn text_length(s: &[u8]) -> usize
    ensures { result ≡ text_length s.now }
{
    if tag(s, 5) != 4 {
        return 0;
    }
    let rest = part::behind(s, 1);
    if rest.len() < 1 {
        return 0;
    }
    field::read(rest, 0, width::width(128) as usize) as usize
}

// Internal. The text, as a part of the payload.
pub fn text(s: &[u8]) -> &[u8]
    ensures { result.now ≡ text_in s.now }
{
    part::within(s, 2, text_length(s))
}

// Internal. How many bytes the value takes, with that of its tag.
pub fn size(s: &[u8], cases: u64) -> usize
    requires { (2 ≤ cases) × (cases ≤ 5) }
    ensures { result ≡ size_at cases s.now }
{
    let t = tag(s, cases);
    if cases <= t {
        return 1;
    }
    match t {
        1 => 9,
        2 => 5,
        3 => 2,
        4 => 2 + text_length(s),
        _ => 1,
    }
}

// Internal. What the value is refused for: 15 where it is cut, 27 for a tag that no case has, 16 for a text that is too long.
pub fn refusal(s: &[u8], cases: u64) -> Result<(), Refusal>
    requires { (2 ≤ cases) × (cases ≤ 5) }
    ensures { (answer_of result).number ≡ (numbered (sized cases s.now)).number }
{
    if s.len() < 1 {
        return Err(Refusal::TooShort);
    }
    if cases <= tag(s, cases) {
        return Err(Refusal::NoCase);
    }
    let n = size(s, cases);
    if s.len() < n {
        return Err(Refusal::TooShort);
    }
    if 130 < n {
        return Err(Refusal::TooLong);
    }
    Ok(())
}

// Internal. The value, if it is all there.
pub fn read(s: &[u8], cases: u64) -> Value
    requires { ((2 ≤ cases) × (cases ≤ 5)) × (size_at cases s.now ≤ length s.now) }
    ensures { result ≡ value_at cases s.now }
{
    let t = tag(s, cases);
    if cases <= t {
        return Value::Unknown;
    }
    let rest = part::behind(s, 1);
    match t {
        1 => Value::Integer(number::read_signed(rest, 0, 64)),
        2 => Value::Real(field::read(rest, 0, 32) as u32),
        3 => Value::Boolean(number::read(rest, 0, 8)),
        4 => Value::Text,
        _ => Value::Empty,
    }
}

// ── writing ──

fn tag_of(v: Value) -> u64
    ensures { result ≡ tag_of v }
{
    match v {
        Value::Empty => 0,
        Value::Integer(_) => 1,
        Value::Real(_) => 2,
        Value::Boolean(_) => 3,
        Value::Text => 4,
        Value::Unknown => 5,
    }
}

// Internal. One of the first so many cases has its tag.
pub fn known(v: Value, cases: u64) -> bool
    ensures { result ≡ ltb (tag_of v) cases }
{
    tag_of(v) < cases
}

// Internal. The text is short enough, or the value is none.
pub fn fits(v: Value, text: &[u8]) -> bool
    ensures { result ≡ text_fits v text.now }
{
    if tag_of(v) != 4 {
        return true;
    }
    text.len() <= 128
}

// Internal. How many bytes the value takes, with that of its tag.
pub fn written_size(v: Value, text: &[u8]) -> usize
    ensures { result ≡ size_of v (length text.now) }
{
    match v {
        Value::Empty => 1,
        Value::Integer(_) => 9,
        Value::Real(_) => 5,
        Value::Boolean(_) => 2,
        Value::Text => 2 + text.len(),
        Value::Unknown => 1,
    }
}

// The text after its length, from byte `at` on.
fn write_text(out: &mut [u8], at: usize, text: &[u8])
    requires { (at < 65536) × (at + 1 + length text.now ≤ length out.old) }
    ensures { out.new ≡ store out.old (at * 8) (text_bits text.now) }
{
    field::write(out, at * 8, width::width(128) as usize, text.len() as u64);
    field::write_bytes(out, at + 1, text);
}

// The fields of the value's case, from byte `at` on.
fn write_content(out: &mut [u8], at: usize, v: Value, text: &[u8])
    requires { (at < 65536) × (at + size_of v (length text.now) ≤ length out.old + 1) }
    ensures { out.new ≡ store out.old (at * 8) (content_bits v text.now) }
{
    match v {
        Value::Empty => {
            return;
        }
        Value::Integer(z) => {
            number::write_signed(out, at * 8, 64, z);
            return;
        }
        Value::Real(x) => {
            field::write(out, at * 8, 32, x as u64);
            return;
        }
        Value::Boolean(z) => {
            number::write(out, at * 8, 8, z);
            return;
        }
        Value::Text => {
            write_text(out, at, text);
            return;
        }
        Value::Unknown => {
            return;
        }
    }
}

// Internal. The tag in the lowest bits of byte `at`, and the fields of the case after it.
pub fn write(out: &mut [u8], at: usize, cases: u64, v: Value, text: &[u8])
    requires { ((2 ≤ cases) × (cases ≤ 5)) × ((at < 65535) × (at + size_of v (length text.now) ≤ length out.old)) }
    ensures { out.new ≡ store out.old (at * 8 + (8 - tag_width cases)) (union_bits cases v text.now) }
{
    let w = width::width(cases - 1) as usize;
    field::write(out, at * 8 + (8 - w), w, tag_of(v));
    write_content(out, at + 1, v, text);
}
