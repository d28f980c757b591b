// Classes of characters, and runs of them at the front of a text (RULES 17.1 to 17.5).
ghost use Rattle.std.specs.Prelude.{◌≡◌, ◌||◌, ◌≤◌, eqb, length};
ghost use Rattle.dsdl_text.specs.Class.{within as is_within, is_blank, is_letter, is_digit, is_in, run as run_of};

#[derive(Clone, Copy)]
pub enum Class {
    // Not the end of a line.
    Inline,
    // Not the number sign, which begins a comment.
    Bare,
    Blank,
    // Not a blank.
    Visible,
    Letter,
    // What a name goes on with: letters, digits and underscores.
    Naming,
    // Neither a dot nor, of a type, the bracket that begins its size.
    Undotted,
    Unbracketed,
    // Digits, the first one without zero.
    Positive,
    Decimal,
    Hexadecimal,
    Octal,
    Binary,
}

fn within(a: u8, b: u8, c: u8) -> bool
    ensures { result ≡ is_within a b c }
{
    if c < a {
        return false;
    }
    c <= b
}

fn is_blank(c: u8) -> bool
    ensures { result ≡ is_blank c }
{
    if c == 32 {
        return true;
    }
    c == 9
}

fn is_end(c: u8) -> bool
    ensures { result ≡ eqb c 10 || eqb c 13 }
{
    if c == 10 {
        return true;
    }
    c == 13
}

fn is_letter(c: u8) -> bool
    ensures { result ≡ is_letter c }
{
    if within(65, 90, c) {
        return true;
    }
    within(97, 122, c)
}

fn is_naming(c: u8) -> bool
    ensures { result ≡ is_letter c || (is_digit c || eqb c 95) }
{
    if is_letter(c) {
        return true;
    }
    if within(48, 57, c) {
        return true;
    }
    c == 95
}

fn is_hexadecimal(c: u8) -> bool
    ensures { result ≡ is_digit c || (is_within 65 70 c || is_within 97 102 c) }
{
    if within(48, 57, c) {
        return true;
    }
    if within(65, 70, c) {
        return true;
    }
    within(97, 102, c)
}

// Internal. The character is of the class.
#[tactic(auto, unfolding(crate::specs::Class::is_in))]
pub fn is(class: Class, c: u8) -> bool
    ensures { result ≡ is_in class c }
{
    match class {
        Class::Inline => !is_end(c),
        Class::Bare => c != 35,
        Class::Blank => is_blank(c),
        Class::Visible => !is_blank(c),
        Class::Letter => is_letter(c),
        Class::Naming => is_naming(c),
        Class::Undotted => c != 46,
        Class::Unbracketed => c != 91,
        Class::Positive => within(49, 57, c),
        Class::Decimal => within(48, 57, c),
        Class::Hexadecimal => is_hexadecimal(c),
        Class::Octal => within(48, 55, c),
        Class::Binary => within(48, 49, c),
    }
}

// Internal. How many characters at the front of s are of the class.
pub fn run(class: Class, s: &[u8]) -> usize
    ensures { (result ≡ run_of class s.now) × (result ≤ length s.now) }
{
    for (i, c) in s.iter().enumerate() {
        if !is(class, *c) {
            return i;
        }
    }
    s.len()
}

// Internal. All characters of s are of the class.
pub fn all(class: Class, s: &[u8]) -> bool
    ensures { result ≡ eqb (run_of class s.now) (length s.now) }
{
    run(class, s) == s.len()
}
