// 40: the first definition at fault (RULES 17.8, 17.12).
ghost use Rattle.std.specs.Prelude.{◌≡◌, ◌≤◌, length};
ghost use Rattle.dsdl.specs.Definition.{text_max, verdict as verdict_of};
ghost use Rattle.dsdl_given.specs.Given.{fault_from};
ghost use Rattle.dsdl_signature.specs.inside.Fault.{told, placed};
ghost use Rattle.dsdl_given.specs.inside.Places.{given, Inside};

use dsdl::fault;
use dsdl_given::places;
use dsdl_given::places::BOUNDS;
use dsdl_text::name;

// A line at fault, counted from 1; 0 is the name.
#[derive(Clone, Copy, Debug, PartialEq, Eq)]
pub struct Line(pub u32);

// A definition at fault, counted from 1, with its line.
#[derive(Clone, Copy, Debug, PartialEq, Eq)]
pub struct Fault {
    pub definition: u32,
    pub line: Line,
}

fn judge(name: &[u8], text: &[u8]) -> Result<(), Line>
    requires { length text.now ≤ text_max }
    ensures { told result ≡ verdict_of name.now text.now }
{
    if !name::is_full_name(name) {
        return Err(Line(0));
    }
    let n = fault::line(text);
    if 0 < n {
        return Err(Line(n as u32));
    }
    Ok(())
}

// Internal. The first of n definitions at fault.
pub fn first(source: &[u8], bounds: [usize; BOUNDS], n: usize) -> Option<Fault>
    requires { Inside source.now bounds n }
    ensures { placed result ≡ fault_from 1 (given source.now bounds n) }
{
    for i in 0..n {
        if let Err(line) = judge(
            places::name(source, bounds, i),
            places::text(source, bounds, i),
        ) {
            return Some(Fault {
                definition: i as u32 + 1,
                line,
            });
        }
    }
    None
}
