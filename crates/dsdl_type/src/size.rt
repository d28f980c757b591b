// The size of an array (RULES 17.4).
ghost use Rattle.std.specs.Prelude.{◌≡◌, ◌-◌, min};
ghost use Rattle.std.specs.Option.{unwrap_or};
ghost use Rattle.dsdl_number.specs.inside.Capped.{cap};
ghost use Rattle.dsdl_type.specs.Size.{unsigned as unsigned_of, count as count_of, bounds_of, items_by, is_bracketed, items as items_of, size_fits};

use dsdl_number::integer;

// How a size is written.
#[derive(Drop)]
pub enum Bounds {
    Exactly,
    Below,
    AtMost,
}

// An integer literal, cut to CAP.
fn unsigned(s: &[u8]) -> Option<u64>
    ensures { unwrap_or result 0 ≡ min (unsigned_of s.now) cap }
{
    let b = integer::base(s)?;
    if b == 10 {
        return Some(integer::capped(s, 10));
    }
    Some(integer::capped(&s[2..], b))
}

// The same, with a plus before it or none.
fn count(s: &[u8]) -> Option<u64>
    ensures { unwrap_or result 0 ≡ min (count_of s.now) cap }
{
    if s.len() == 0 {
        return None;
    }
    if s[0] == 43 {
        return unsigned(&s[1..]);
    }
    unsigned(s)
}

// Internal. How a size is written, by what is between its brackets.
pub fn bounds_of(s: &[u8]) -> Bounds
    ensures { result ≡ bounds_of s.now }
{
    if s.len() == 0 {
        return Bounds::Exactly;
    }
    if s[0] != 60 {
        return Bounds::Exactly;
    }
    if s.len() == 1 {
        return Bounds::Below;
    }
    if s[1] == 61 {
        return Bounds::AtMost;
    }
    Bounds::Below
}

fn at_most(n: u64) -> u64
    ensures { result ≡ min n (cap - 1) }
{
    if n < integer::CAP {
        return n;
    }
    integer::CAP - 1
}

// The largest number of items by what is between the brackets, cut to one less than CAP.
fn items_by(s: &[u8]) -> Option<u64>
    ensures { unwrap_or result 0 ≡ min (items_by (bounds_of s.now) s.now) (cap - 1) }
{
    match bounds_of(s) {
        Bounds::Exactly => Some(at_most(count(s)?)),
        Bounds::Below => {
            let n = count(&s[1..])?;
            if n == 0 {
                return None;
            }
            Some(n - 1)
        }
        Bounds::AtMost => Some(at_most(count(&s[2..])?)),
    }
}

// Internal. The brackets of a size are there.
pub fn is_bracketed(s: &[u8]) -> bool
    ensures { result ≡ is_bracketed s.now }
{
    let n = s.len();
    if n < 2 {
        return false;
    }
    if s[0] != 91 {
        return false;
    }
    s[n - 1] == 93
}

// Internal. The largest number of items, cut to one less than CAP.
pub fn items(s: &[u8]) -> Option<u64>
    ensures { unwrap_or result 0 ≡ min (items_of s.now) (cap - 1) }
{
    if !is_bracketed(s) {
        return None;
    }
    let end = s.len() - 1;
    items_by(&s[1..end])
}

// Internal. No size, or a right one.
pub fn fits(s: &[u8]) -> bool
    ensures { result ≡ size_fits s.now }
{
    if s.len() == 0 {
        return true;
    }
    match items(s) {
        Some(n) => 0 < n,
        None => false,
    }
}
