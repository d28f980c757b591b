// Signed numbers as text: decimal digits, after a minus sign or not; in a list, a comma between two, and a dash for none.
ghost use Rattle.std.specs.Prelude.{◌+◌};

use super::{number, put};
use console::Console;
use shape::signed;

// The i-th number, if there is a place for it.
fn keep(places: &mut [i64], i: usize, v: i64) {
    if i < places.len() {
        places[i] = v;
    }
}

// Internal. The numbers that s stands for, as many as there are places; how many they are. None if s is no list of numbers.
pub fn read(s: &[u8], places: &mut [i64]) -> Option<usize> {
    if s == b"-".as_slice() {
        return Some(0);
    }
    let mut n = 0;
    let mut p = 0;
    // A while: how far it goes on depends on where each number ends.
    while p <= s.len() {
        let e = digits::find(s, p, 44);
        keep(places, n, number::read(&s[p..e])?);
        n += 1;
        p = e + 1;
    }
    Some(n)
}

// Internal. The numbers of a type that has one list of them and no other field.
pub fn only(words: &[u8], name: &[u8], places: &mut [i64]) -> Option<usize> {
    if words.is_empty() {
        return Some(0);
    }
    let w = &words[1..];
    let q = digits::find(w, 0, 61);
    if q == w.len() {
        return None;
    }
    if &w[0..q] != name {
        return None;
    }
    read(&w[q + 1..], places)
}

// Internal. The first n, or as many as there are.
pub fn first(s: &[i64], n: usize) -> &[i64] {
    if s.len() < n {
        return s;
    }
    &s[0..n]
}

// Internal.
pub fn number(console: &mut Console, out: &mut [u8], at: usize, v: i64) -> usize {
    if v < 0 {
        let a = put::byte(console, out, at, 45);
        return put::decimal(console, out, a, signed::size(v) + 1);
    }
    put::decimal(console, out, at, signed::size(v))
}

// The comma before all but the first.
fn comma(console: &mut Console, out: &mut [u8], at: usize, i: usize) -> usize {
    if 0 < i {
        return put::byte(console, out, at, 44);
    }
    at
}

// Internal.
pub fn list(console: &mut Console, out: &mut [u8], at: usize, s: &[i64]) -> usize {
    if s.len() == 0 {
        return put::byte(console, out, at, 45);
    }
    let mut o = at;
    for (i, v) in s.iter().enumerate() {
        let a = comma(console, out, o, i);
        o = number(console, out, a, *v);
    }
    o
}
