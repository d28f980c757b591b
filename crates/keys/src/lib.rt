// Tables of keys of 32 bits, 0 for an empty place: loaded once from lent bytes, marked and counted on a walk that finds two alike, and the lowest place of one.
#![tactic(auto)]

ghost use Rattle.std.specs.Prelude.{◌||◌, ◌≡◌, ◌+◌, ◌*◌, ◌≤◌, ◌<◌, eqb, length, get_or, set};
ghost use Rattle.bits.specs.Tabulate.{tabulate};
ghost use Rattle.keys.specs.inside.Keys.{word_at, lowest, marks_max, mark_at};
ghost use Rattle.keys.specs.inside.Keys as inside;

// Internal. As many keys as the table has, from `at` on, four bytes each.
pub fn load(table: &mut [u32], s: &[u8], at: usize)
    requires { at + length table.old * 4 ≤ length s.now }
    ensures { table.new ≡ tabulate (word_at s.now at) 0 (length table.old) }
{
    for (i, k) in table.iter_mut().enumerate() {
        *k = bits::le::get_u32(s, at + i * 4);
    }
}

// Internal. How often k is in the table. No early exit, so that the loop becomes a few vector compares.
pub fn count(table: &[u32], k: u32) -> u32
    requires { length table.now < 4294967296 }
    ensures { result ≡ inside.count k table.now }
{
    let mut hits: u32 = 0;
    for x in table {
        hits += (*x == k) as u32;
    }
    hits
}

// Internal. How many marks a walk over a table has.
pub const MARKS: usize = 128;

// Where a key sets its mark: like keys the same one, unlike keys mostly different ones. The factor is 2^32 over the golden ratio, which spreads
// any run of neighbours.
fn mark_at(k: u32) -> usize
    ensures { result ≡ mark_at k }
{
    (k as u64 * 2654435769 / 33554432) as usize % MARKS
}

// Internal. Sets the mark of the key k; whether it was not set. On a walk, no key passed is then like k.
pub fn mark(marks: &mut [u8; MARKS], k: u32) -> bool
    requires { length marks.old ≡ marks_max }
    ensures { (result ≡ eqb (get_or marks.old (mark_at k) 0) 0) × (marks.new ≡ set marks.old (mark_at k) 1) }
{
    let at = mark_at(k);
    let first = marks[at] == 0;
    marks[at] = 1;
    first
}

// Internal. The key k is 0 or is in the table once; `first`: it is known that it is at no earlier place.
pub fn is_alone(table: &[u32], k: u32, first: bool) -> bool
    requires { length table.now < 4294967296 }
    ensures { result ≡ (first || (eqb k 0 || eqb (inside.count k table.now) 1)) }
{
    if first {
        return true;
    }
    if k == 0 {
        return true;
    }
    count(table, k) == 1
}

// Internal. The lowest of the n places from `at` on that has the key k, or n.
pub fn find(s: &[u8], at: usize, n: usize, k: u32) -> usize
    requires { at + n * 4 ≤ length s.now }
    ensures { result ≡ lowest (λ i. eqb (word_at s.now at i) k) 0 n }
{
    for i in 0..n {
        if bits::le::get_u32(s, at + i * 4) == k {
            return i;
        }
    }
    n
}
