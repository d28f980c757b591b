// The values of initializers, and the types that hold them (RULES 17.6, 17.7).
ghost use Rattle.std.specs.Prelude.{◌≡◌, true, false, not, cond, ◌&&◌, ◌+◌, ◌<◌, ltb, MatchOption};
ghost use Rattle.std.specs.Option.{unwrap_or};
ghost use Rattle.dsdl_text.specs.Text.{chars, same};
ghost use Rattle.dsdl_text.specs.Words.{word};
ghost use Rattle.dsdl_number.specs.Integer.{base_of, is_integer, integer as integer_of};
ghost use Rattle.dsdl_number.specs.Number.{is_sign, whole, floating as floating_of, character as character_of, number, only_word, initializer};
ghost use Rattle.dsdl_type.specs.Constant.{holds, fits as fits_of};
ghost use Rattle.dsdl_type.specs.inside.Bases.{is_sized};
ghost use Rattle.dsdl_type.specs.inside.Signs.{value_behind};

use super::base::Base;
use super::constant;
use dsdl_number::{character, floating, integer};
use dsdl_text::class::Class;
use dsdl_text::{class, text};

// An integer literal.
fn integer_fits(b: Base, negative: bool, w: &[u8], base: u64) -> bool
    requires { (is_sized b ≡ true) × ((base ≡ base_of w.now) × (0 < base)) }
    ensures { result ≡ holds b (whole negative (integer_of w.now)) }
{
    let n = w.len();
    if base == 10 {
        return constant::holds(b, negative, w, n, n, base);
    }
    let m = n - 2;
    constant::holds(b, negative, &w[2..n], m, m, base)
}

// How many characters a fraction of f digits takes with its point.
fn with_point(f: usize) -> usize
    requires { f < 0x8000000000000000 }
    ensures { result ≡ cond (ltb 0 f) (1 + f) 0 }
{
    if f == 0 {
        return 0;
    }
    1 + f
}

fn floating_fits(b: Base, negative: bool, w: &[u8]) -> bool
    requires { is_sized b ≡ true }
    ensures { result ≡ holds b (floating_of negative w.now) }
{
    let before = class::run(Class::Decimal, w);
    let behind = floating::fraction_length(&w[before..]);
    let end = before + with_point(behind);
    let n = floating::whole_digits(&w[end..], before, behind);
    constant::holds(b, negative, &w[0..end], before, n, 10)
}

// The base of an integer literal behind a sign or none; the literal `0` has no sign before it.
fn base_behind(signed: bool, w: &[u8]) -> Option<u64>
    ensures { MatchOption result ((is_integer w.now && not (signed && same w.now (chars "0"))) ≡ false) (λ n. ((is_integer w.now && not (signed && same w.now (chars "0"))) ≡ true) × ((n ≡ base_of w.now) × (0 < n))) }
{
    if signed {
        if text::same(w, b"0") {
            return None;
        }
    }
    integer::base(w)
}

// A number, with a sign before it or none.
fn number_fits(b: Base, signed: bool, negative: bool, w: &[u8]) -> bool
    requires { is_sized b ≡ true }
    ensures { result ≡ fits_of b (number signed negative w.now) }
{
    if let Some(base) = base_behind(signed, w) {
        return integer_fits(b, negative, w, base);
    }
    if floating::is_floating(w) {
        return floating_fits(b, negative, w);
    }
    false
}

// A word with a sign before it, true for a minus, or none.
fn word_fits(b: Base, sign: Option<bool>, w: &[u8]) -> bool
    requires { is_sized b ≡ true }
    ensures { result ≡ fits_of b (value_behind sign w.now) }
{
    if let Some(negative) = sign {
        return number_fits(b, true, negative, w);
    }
    if text::same(w, b"true") {
        return constant::holds_code(b, 1);
    }
    if text::same(w, b"false") {
        return constant::holds_code(b, 0);
    }
    number_fits(b, false, false, w)
}

// One such word, and nothing but blanks behind it.
fn last_fits(b: Base, sign: Option<bool>, l: &[u8]) -> bool
    requires { is_sized b ≡ true }
    ensures { result ≡ fits_of b (only_word l.now (value_behind sign (word l.now))) }
{
    let n = class::run(Class::Visible, l);
    if !class::all(Class::Blank, &l[n..]) {
        return false;
    }
    word_fits(b, sign, &l[0..n])
}

// A character by its code.
fn character_fits(b: Base, code: Option<u8>) -> bool
    requires { is_sized b ≡ true }
    ensures { result ≡ fits_of b (character_of (unwrap_or code 256)) }
{
    match code {
        Some(c) => constant::holds_code(b, c as u64),
        None => false,
    }
}

fn is_sign(c: u8) -> bool
    ensures { result ≡ is_sign c }
{
    if c == 43 {
        return true;
    }
    c == 45
}

// Internal. The type holds the value of the initializer that begins at the front of l and is all of it.
pub fn fits(b: Base, l: &[u8]) -> bool
    requires { is_sized b ≡ true }
    ensures { result ≡ fits_of b (initializer l.now) }
{
    if l.len() == 0 {
        return false;
    }
    let c = l[0];
    if c == 39 {
        return character_fits(b, character::quoted(&l[1..]));
    }
    if is_sign(c) {
        let at = 1 + class::run(Class::Blank, &l[1..]);
        return last_fits(b, Some(c == 45), &l[at..]);
    }
    last_fits(b, None, l)
}
