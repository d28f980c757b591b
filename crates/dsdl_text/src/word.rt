// Words of a line (RULES 17.1).
ghost use Rattle.std.specs.Prelude.{◌≡◌, ◌≤◌, length};
ghost use Rattle.dsdl_text.specs.inside.Words.{word_in};

use super::class;
use super::class::Class;

// Where a word begins and ends.
#[derive(Clone, Copy)]
pub struct Word {
    pub at: usize,
    pub end: usize,
}

// Internal. The next word of a line, from `from` on, before `stop`; an empty one at `stop` if there is none.
pub fn next(line: &[u8], from: usize, stop: usize) -> Word
    requires { (from ≤ stop) × (stop ≤ length line.now) }
    ensures { (result ≡ word_in line.now from stop) × ((from ≤ result.at) × ((result.at ≤ result.end) × (result.end ≤ stop))) }
{
    let at = from + class::run(Class::Blank, &line[from..stop]);
    let end = at + class::run(Class::Visible, &line[at..stop]);
    Word { at: at, end: end }
}
