// The lines of a text (RULES 17.1).
ghost use Rattle.std.specs.Prelude.{◌≡◌, ◌≤◌, ◌<◌, length};
ghost use Rattle.dsdl_text.specs.inside.Lines.{end_of, after_end};

use super::class;
use super::class::Class;

// Internal. Where the line ends that begins at `at`.
pub fn end(text: &[u8], at: usize) -> usize
    requires { at ≤ length text.now }
    ensures { (result ≡ end_of text.now at) × ((at ≤ result) × (result ≤ length text.now)) }
{
    at + class::run(Class::Inline, &text[at..])
}

// Internal. Where the next line begins, behind a line's end at `at`.
pub fn next(text: &[u8], at: usize) -> usize
    requires { at < length text.now }
    ensures { (result ≡ after_end text.now at) × ((at < result) × (result ≤ length text.now)) }
{
    let behind = at + 1;
    if text[at] == 13 {
        if behind < text.len() {
            if text[behind] == 10 {
                return behind + 1;
            }
        }
    }
    behind
}
