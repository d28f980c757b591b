// Names of nested types (RULES 17.3, 17.10).
ghost use Rattle.std.specs.Prelude.{◌≡◌};
ghost use Rattle.dsdl_text.specs.Text.{same};
ghost use Rattle.dsdl_text.specs.Names.{full_name};

use dsdl_text::{name, text};

// Internal. The type that a definition in the namespace `space` refers to by `base` has this name.
pub fn is(space: &[u8], base: &[u8], name: &[u8]) -> bool
    ensures { result ≡ same (full_name space.now base.now) name.now }
{
    if name::has_dot(base) {
        return text::same(base, name);
    }
    let n = space.len();
    if name.len() < n {
        return false;
    }
    if !text::same(space, &name[0..n]) {
        return false;
    }
    text::same(base, &name[n..])
}
