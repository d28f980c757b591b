// The names of a part, by their places in the text (RULES 17.8).
ghost use Rattle.std.specs.Prelude.{◌≡◌, ◌≤◌, ◌<◌, length};
ghost use Rattle.dsdl_text.specs.Text.{same};
ghost use Rattle.dsdl_text.specs.inside.Words.{part};
ghost use Rattle.dsdl_line.specs.inside.Places.{word_of};
ghost use Rattle.dsdl.specs.Definition.{text_max, is_among};
ghost use Rattle.dsdl.specs.inside.Names.{names_max, word_at, names_at, mark_of, Kept};

use dsdl_text::text;
use dsdl_text::word::Word;

// Internal. The most names of a part, whose lines take two bytes or more each.
pub const NAMES: usize = 2048;

// Internal. The word w as far as l reaches.
pub fn within(l: &[u8], w: Word) -> Word
    ensures { (word_of l.now result ≡ word_of l.now w) × ((result.at ≤ result.end) × (result.end ≤ length l.now)) }
{
    let n = l.len();
    let at = w.at;
    let end = w.end;
    if n <= at {
        return Word { at: n, end: n };
    }
    if end <= at {
        return Word { at: at, end: at };
    }
    if n <= end {
        return Word { at: at, end: n };
    }
    w
}

// Internal. The place in the text of a word of the line from `at` to `end`.
pub fn placed(t: &[u8], at: usize, end: usize, w: Word) -> Word
    requires { (at ≤ end) × (end ≤ length t.now) }
    ensures { (word_of t.now result ≡ word_of (part t.now at end) w) × ((result.at ≤ result.end) × (result.end ≤ end)) }
{
    let v = within(&t[at..end], w);
    Word {
        at: at + v.at,
        end: at + v.end,
    }
}

// Internal. A word's place as one number.
pub fn packed(w: Word) -> u32
    requires { (w.at ≤ text_max) × (w.end ≤ text_max) }
    ensures { word_at result ≡ w }
{
    (w.at * 8192 + w.end) as u32
}

// The text x is the word at the place p.
fn is_at(t: &[u8], p: u32, x: &[u8]) -> bool
    ensures { result ≡ same x.now (word_of t.now (word_at p)) }
{
    let w = within(
        t,
        Word {
            at: (p / 8192) as usize,
            end: (p % 8192) as usize,
        },
    );
    let at = w.at;
    let end = w.end;
    text::same(x, &t[at..end])
}

// The text x is one of the n names.
fn is_among(t: &[u8], seen: &[u32; NAMES], n: usize, x: &[u8]) -> bool
    requires { n ≤ names_max }
    ensures { result ≡ is_among x.now (names_at t.now seen.now n) }
{
    for i in (0..n).rev() {
        if is_at(t, seen[i], x) {
            return true;
        }
    }
    false
}

// Internal. Where a name sets its mark: like names the same one, unlike names mostly different ones. The factor is above the range of the characters
// of names, which parts short names.
pub fn mark_at(x: &[u8]) -> usize
    ensures { (result ≡ mark_of x.now) × (result < names_max) }
{
    let mut mark = 0;
    for c in x {
        mark = (mark * 131 + *c as usize) % NAMES;
    }
    mark
}

// Internal. The text x, whose mark is m, is one of the n names. The marks of these are set, so most of the time no walk is needed.
pub fn is_taken(
    t: &[u8],
    seen: &[u32; NAMES],
    marks: &[u8; NAMES],
    n: usize,
    x: &[u8],
    m: usize,
) -> bool
    requires { Kept t.now seen.now marks.now n × ((n ≤ names_max) × ((m ≡ mark_of x.now) × (m < names_max))) }
    ensures { result ≡ is_among x.now (names_at t.now seen.now n) }
{
    if marks[m] == 0 {
        return false;
    }
    is_among(t, seen, n, x)
}
