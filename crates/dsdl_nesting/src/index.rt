// Definitions by their names.
ghost use Rattle.std.specs.Prelude.{◌≡◌, ◌≤◌};
ghost use Rattle.dsdl_text.specs.Names.{full_name};
ghost use Rattle.dsdl_given.specs.inside.Places.{given, Inside};
ghost use Rattle.dsdl_nesting.specs.inside.Kept.{index_of};

use super::named;
use dsdl_given::places;
use dsdl_given::places::BOUNDS;

// Places for values of the definitions, and one for a name that none of them has.
pub const PLACES: usize = 9;

// Internal. The index of the definition that one in the namespace `space` refers to by `base`; n if there is none.
pub fn find(source: &[u8], bounds: [usize; BOUNDS], n: usize, space: &[u8], base: &[u8]) -> usize
    requires { Inside source.now bounds n }
    ensures { (result ≡ index_of (given source.now bounds n) (full_name space.now base.now)) × (result ≤ n) }
{
    for i in 0..n {
        if named::is(space, base, places::name(source, bounds, i)) {
            return i;
        }
    }
    n
}
