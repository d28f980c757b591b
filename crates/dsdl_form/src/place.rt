// Text in a buffer that may have no room for it: what is written past the end is only counted, so that a length is found as a text is written.
ghost use Rattle.dsdl_form.specs.inside.Placed.{Fits, Placed};

use bits::part;

// Internal. The text s from `at` on if there is room for it, and the place past it.
pub fn text(out: &mut [u8], at: usize, s: &[u8]) -> usize
    requires { Fits at s.now }
    ensures { Placed out.old out.new at result s.now }
{
    let end = at + s.len();
    if out.len() < end {
        return end;
    }
    part::copy_at(out, at, s);
    end
}
