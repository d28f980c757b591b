// The size of an array in the normalized form (RULES 17.9).
ghost use Rattle.std.specs.Prelude.{◌≡◌, true, ◌-◌, ◌≤◌, ◌<◌, length};
ghost use Rattle.digits.specs.Digits.{decimal as decimal_of};
ghost use Rattle.dsdl_type.specs.Size.{unsigned as unsigned_of, count as count_of, bounds_of, items_by, bracket, size_fits, size_form};
ghost use Rattle.dsdl_form.specs.inside.Placed.{Fits, Placed};

use super::{decimal, place};
use dsdl_number::integer;
use dsdl_type::size;
use dsdl_type::size::Bounds;

// The integer literal l less `less`.
fn unsigned(out: &mut [u8], at: usize, l: &[u8], less: u64) -> usize
    requires { (length l.now ≤ 4096) × ((less ≤ 1) × ((less < unsigned_of l.now) × Fits at (decimal_of (unsigned_of l.now - less)))) }
    ensures { Placed out.old out.new at result (decimal_of (unsigned_of l.now - less)) }
{
    let Some(b) = integer::base(l) else {
        // Never: less is below the number of l, so l is a literal.
        return at;
    };
    if b == 10 {
        return decimal::number(out, at, l, 10, less);
    }
    decimal::number(out, at, &l[2..], b, less)
}

// The same, with a plus before it or none.
fn count(out: &mut [u8], at: usize, l: &[u8], less: u64) -> usize
    requires { (length l.now ≤ 4096) × ((less ≤ 1) × ((less < count_of l.now) × Fits at (decimal_of (count_of l.now - less)))) }
    ensures { Placed out.old out.new at result (decimal_of (count_of l.now - less)) }
{
    if l[0] == 43 {
        return unsigned(out, at, &l[1..], less);
    }
    unsigned(out, at, l, less)
}

// The number of items, by what is between the brackets.
fn items(out: &mut [u8], at: usize, l: &[u8]) -> usize
    requires { (length l.now ≤ 4096) × ((0 < items_by (bounds_of l.now) l.now) × Fits at (decimal_of (items_by (bounds_of l.now) l.now))) }
    ensures { Placed out.old out.new at result (decimal_of (items_by (bounds_of l.now) l.now)) }
{
    match size::bounds_of(l) {
        Bounds::Exactly => count(out, at, l, 0),
        Bounds::Below => count(out, at, &l[1..], 1),
        Bounds::AtMost => count(out, at, &l[2..], 0),
    }
}

// The bracket that a size begins with, by what is between the brackets.
fn opening(out: &mut [u8], at: usize, l: &[u8]) -> usize
    requires { Fits at (bracket (bounds_of l.now)) }
    ensures { Placed out.old out.new at result (bracket (bounds_of l.now)) }
{
    match size::bounds_of(l) {
        Bounds::Exactly => place::text(out, at, b"["),
        Bounds::Below => place::text(out, at, b"[<="),
        Bounds::AtMost => place::text(out, at, b"[<="),
    }
}

// Internal. A size that is right, or none.
pub fn write(out: &mut [u8], at: usize, s: &[u8]) -> usize
    requires { (length s.now ≤ 4096) × ((size_fits s.now ≡ true) × Fits at (size_form s.now)) }
    ensures { Placed out.old out.new at result (size_form s.now) }
{
    if s.len() == 0 {
        return at;
    }
    let end = s.len() - 1;
    let p = opening(out, at, &s[1..end]);
    let q = items(out, p, &s[1..end]);
    place::text(out, q, b"]")
}
