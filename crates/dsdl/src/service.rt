// Services: definitions with a response marker (RULES 17.8).
ghost use Rattle.std.specs.Prelude.{◌≡◌};
ghost use Rattle.dsdl_line.specs.Line.{line_of};
ghost use Rattle.dsdl.specs.Definition.{is_marker, lines_of, is_service};

use dsdl_line::shape;
use dsdl_text::line;

fn is_marker(l: &[u8]) -> bool
    ensures { result ≡ is_marker (line_of l.now) }
{
    shape::is_marker(shape::read(l))
}

// Internal. The text is that of a service.
pub fn is_service(text: &[u8]) -> bool
    ensures { result ≡ is_service (lines_of text.now) }
{
    let mut at = 0;
    let mut end = line::end(text, 0);
    // A while: how far it goes on depends on where the lines end.
    while end < text.len() {
        if is_marker(&text[at..end]) {
            return true;
        }
        at = line::next(text, end);
        end = line::end(text, at);
    }
    is_marker(&text[at..end])
}
