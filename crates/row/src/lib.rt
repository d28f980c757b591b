// Rows of numbers of 64 bits: the form in which C lends and gets the fields of a message (RULES 13.5).
#![tactic(auto)]

ghost use Rattle.std.specs.Prelude.{◌≡◌, ◌++◌, ◌^◌, ◌≤◌, ◌<◌, length, drop};
ghost use Rattle.shape.specs.Answer.{got, answer_of};
ghost use Rattle.shape.specs.Cast.{low_bits};
ghost use Rattle.row.specs.Laws.{WordLaws};
ghost use Rattle.row.specs.Row.{count_at, number_at, row, word_of};

use shape::answer::Refusal;
use shape::{cast, signed};

// Internal. A signed number as a word.
pub fn word(v: i64) -> u64
    ensures { result ≡ low_bits 64 v }
{
    cast::truncated(v, 64)
}

// Internal. The i-th word of an unsigned field, which counts as the largest number that can be given if it is larger (RULES 9.14).
pub fn count(fields: &[u64], i: usize) -> i64
    requires { i < length fields.now }
    ensures { result ≡ count_at fields.now i }
{
    let x = fields[i];
    if x < 0x8000000000000000 {
        return x as i64;
    }
    0x7FFFFFFFFFFFFFFF
}

// Internal. The i-th word of a signed field.
pub fn number(fields: &[u64], i: usize) -> i64
    requires { i < length fields.now }
    ensures { result ≡ number_at fields.now i }
{
    signed::value(fields[i], 64)
}

// Internal. The words of a message that was read: 8 for too few places.
pub fn put(words: &[u64], fields: &mut [u64]) -> u32
    ensures { (result, fields.new) ≡ row (got words.now) fields.old }
{
    if fields.len() < words.len() {
        return 8;
    }
    fields[..words.len()].copy_from_slice(words);
    0
}

// Internal. A writer's answer as a result word.
#[tactic(auto, unfolding(crate::specs::Row::word_of))]
pub fn of_written(a: Result<usize, Refusal>) -> u64
    requires { word_of (answer_of a) < 2 ^ 64 }
    ensures { result ≡ word_of (answer_of a) }
{
    match a {
        Ok(n) => n as u64 * 256,
        Err(r) => r.number() as u64,
    }
}

// What C reads of a writer's result word.
pub fn word_fields()
    ensures { WordLaws }
{}
