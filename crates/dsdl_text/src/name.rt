// Names (RULES 17.2, 17.3, 17.8).
ghost use Rattle.std.specs.Prelude.{◌≡◌, ◌≤◌, length};
ghost use Rattle.dsdl_text.specs.Names.{is_name, goes_on, is_dotted, has_dot, is_full_name, last_dot};

use super::class;
use super::class::Class;

pub const NAME: usize = 80;

// Internal. A letter, and then letters, digits and underscores.
pub fn is_name(s: &[u8]) -> bool
    ensures { result ≡ is_name s.now }
{
    if s.len() == 0 {
        return false;
    }
    if !class::is(Class::Letter, s[0]) {
        return false;
    }
    class::all(Class::Naming, s)
}

// A character that a dotted name has here; `begins`: a part of it begins.
fn goes_on(begins: bool, c: u8) -> bool
    ensures { result ≡ goes_on begins c }
{
    if begins {
        return class::is(Class::Letter, c);
    }
    if class::is(Class::Naming, c) {
        return true;
    }
    c == 46
}

// Internal. Names joined by dots.
pub fn is_dotted(s: &[u8]) -> bool
    ensures { result ≡ is_dotted s.now }
{
    let mut begins = true;
    for c in s {
        if !goes_on(begins, *c) {
            return false;
        }
        begins = *c == 46;
    }
    !begins
}

// Internal. There is a dot.
pub fn has_dot(s: &[u8]) -> bool
    ensures { result ≡ has_dot s.now }
{
    !class::all(Class::Undotted, s)
}

// Internal. The name of a definition.
pub fn is_full_name(s: &[u8]) -> bool
    ensures { result ≡ is_full_name s.now }
{
    if !is_dotted(s) {
        return false;
    }
    if !has_dot(s) {
        return false;
    }
    s.len() <= NAME
}

// Internal. The length of a full name's namespace, with the dot behind it.
pub fn space(s: &[u8]) -> usize
    ensures { (result ≡ last_dot 0 0 s.now) × (result ≤ length s.now) }
{
    let mut end = 0;
    for (i, c) in s.iter().enumerate() {
        if *c == 46 {
            end = i + 1;
        }
    }
    end
}
