// The fields that a request gives: words of a name, an equals sign and a value, each after a space.
ghost use Rattle.std.specs.Prelude.{◌+◌, ◌≤◌, length};

use super::{hex, names, number};
use shape::answer::Place;
use shape::part;

// Where the value of the first word of that name is; 0, where no value can be, if there is no such word.
fn find(words: &[u8], name: &[u8]) -> Place
    ensures { result.at + result.len ≤ length words.now }
{
    let mut p = 0;
    // A while: how far it goes on depends on where each word ends.
    while p < words.len() {
        let e = digits::find(words, p + 1, 32);
        let q = digits::find(&words[0..e], p + 1, 61);
        if q < e {
            if &words[p + 1..q] == name {
                return Place {
                    at: q + 1,
                    len: e - (q + 1),
                };
            }
        }
        p = e;
    }
    Place { at: 0, len: 0 }
}

// The i-th field, whose value s is at `at`: a number as long as there are numbers, then a list, whose bytes go to the same place.
fn value(values: &mut [i64], i: usize, s: &[u8], bytes: &mut [u8], at: usize) -> Option<()>
    requires { at + length s.now ≤ length bytes.old }
{
    if i < values.len() {
        values[i] = number::read(s)?;
        return Some(());
    }
    hex::read(s, bytes, at)?;
    Some(())
}

// The word from `from` to `to`: a name of the type, the first time, and its value.
fn word(
    names: &[u8],
    words: &[u8],
    from: usize,
    to: usize,
    values: &mut [i64],
    bytes: &mut [u8],
) -> Option<()>
    requires { (from ≤ to) × ((to ≤ length words.now) × (length words.now ≤ length bytes.old)) }
{
    let w = &words[from..to];
    let q = digits::find(w, 0, 61);
    if q == w.len() {
        return None;
    }
    let name = &w[0..q];
    let first = find(words, name);
    if first.at != from + q + 1 {
        return None;
    }
    let i = names::find(names, name)?;
    value(values, i, &w[q + 1..], bytes, from + q + 1)
}

// Internal. Reads every word: the numbers into `values`, in the order of the names, the lists into `bytes`, each where its digits are in
// the words. A field that is not named stays as it is. None if a word is not well formed.
pub fn read(names: &[u8], words: &[u8], values: &mut [i64], bytes: &mut [u8]) -> Option<()>
    requires { length words.now ≤ length bytes.old }
{
    let mut p = 0;
    // A while: how far it goes on depends on where each word ends.
    while p < words.len() {
        let e = digits::find(words, p + 1, 32);
        word(names, words, p + 1, e, values, bytes)?;
        p = e;
    }
    Some(())
}

// Internal. The list of that name, of words that were read.
pub fn list<'a>(words: &[u8], name: &[u8], bytes: &'a [u8]) -> &'a [u8] {
    let p = find(words, name);
    part::within(bytes, p.at, p.len / 2)
}

// Internal. The number of that name for a field of 64 bits without a sign, of words that were read.
pub fn unsigned(words: &[u8], name: &[u8]) -> u64 {
    let p = find(words, name);
    let at = p.at;
    let end = p.at + p.len;
    number::unsigned(&words[at..end])
}
