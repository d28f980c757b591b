// 41 and 42 (RULES 17.10): marks of the definitions, and whether all nested types of one are marked.
ghost use Rattle.std.specs.Prelude.{◌≡◌, true, false, not, ◌||◌, ℕ, ◌≤◌, ◌<◌, get_or};
ghost use Rattle.bits.specs.Tabulate.{every};
ghost use Rattle.dsdl_given.specs.Given.{definition_max, name_twice, is_service_of};
ghost use Rattle.dsdl_given.specs.inside.Places.{definition_at, given, Inside};
ghost use Rattle.dsdl_nesting.specs.Nesting.{all_given, chain_max, within as is_within, all_within};
ghost use Rattle.dsdl_nesting.specs.inside.Kept.{Kept};
ghost use Rattle.dsdl_nesting.specs.inside.Sets.{row_holds};

use super::index::PLACES;
use super::sets;
use super::sets::SETS;
use dsdl::service;
use dsdl_given::places;
use dsdl_given::places::BOUNDS;

fn holds(nested: bool, marked: bool) -> bool
    ensures { result ≡ not nested || marked }
{
    !nested || marked
}

// What row i marks is marked.
fn row(sets: [bool; SETS], i: usize, marks: [bool; PLACES]) -> bool
    requires { i < definition_max }
    ensures { result ≡ row_holds sets marks i }
{
    for j in 0..PLACES {
        if !holds(sets[i * PLACES + j], marks[j]) {
            return false;
        }
    }
    true
}

// Internal. For each definition, whether all its nested types are marked. Arrays are filled by loops, not by a closure, which C could not call.
pub fn next(sets: [bool; SETS], n: usize, marks: [bool; PLACES]) -> [bool; PLACES]
    requires { n ≤ definition_max }
    ensures { Kept false (row_holds sets marks) true n n result }
{
    let mut r = [true; PLACES];
    for i in 0..n {
        r[i] = row(sets, i, marks);
    }
    r
}

fn messages(source: &[u8], bounds: [usize; BOUNDS], n: usize) -> [bool; PLACES]
    requires { Inside source.now bounds n }
    ensures { Kept false (λ (i : ℕ). not (is_service_of (definition_at source.now bounds i))) false n n result }
{
    let mut r = [false; PLACES];
    for i in 0..n {
        r[i] = !service::is_service(places::text(source, bounds, i));
    }
    r
}

// For each definition, whether no chain of nesting from it on has more than four, level by level.
fn within(source: &[u8], bounds: [usize; BOUNDS], n: usize) -> [bool; PLACES]
    requires { Inside source.now bounds n }
    ensures { Kept false (λ (i : ℕ). is_within chain_max (given source.now bounds n) (definition_at source.now bounds i)) true n n result }
{
    let sets = sets::all(source, bounds, n);
    let none = [false; PLACES];
    let one = next(sets, n, none);
    let two = next(sets, n, one);
    let three = next(sets, n, two);
    next(sets, n, three)
}

// The first n are marked.
fn all(marks: [bool; PLACES], n: usize) -> bool
    requires { n < 9 }
    ensures { result ≡ every (λ (i : ℕ). get_or marks i false) 0 n }
{
    for i in 0..n {
        if !marks[i] {
            return false;
        }
    }
    true
}

// Internal. 41 does not answer.
pub fn all_given(source: &[u8], bounds: [usize; BOUNDS], n: usize) -> bool
    requires { Inside source.now bounds n × (name_twice (given source.now bounds n) ≡ false) }
    ensures { result ≡ all_given (given source.now bounds n) }
{
    let m = messages(source, bounds, n);
    all(next(sets::all(source, bounds, n), n, m), n)
}

// Internal. 42 does not answer.
pub fn all_within(source: &[u8], bounds: [usize; BOUNDS], n: usize) -> bool
    requires { Inside source.now bounds n }
    ensures { result ≡ all_within (given source.now bounds n) }
{
    all(within(source, bounds, n), n)
}
