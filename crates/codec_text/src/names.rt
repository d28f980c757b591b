// The names of a type's fields: one text, with a space between two names.

// Internal. The place of a name among the names.
pub fn find(names: &[u8], name: &[u8]) -> Option<usize> {
    let mut i = 0;
    let mut p = 0;
    // A while: how far it goes on depends on where each name ends.
    while p < names.len() {
        let e = digits::find(names, p, 32);
        if &names[p..e] == name {
            return Some(i);
        }
        if e == names.len() {
            return None;
        }
        p = e + 1;
        i += 1;
    }
    None
}

// Internal. The i-th name; nothing where there are fewer.
pub fn nth(names: &[u8], i: usize) -> &[u8] {
    let mut left = i;
    let mut p = 0;
    // A while, for the same reason.
    while p < names.len() {
        let e = digits::find(names, p, 32);
        if left == 0 {
            return &names[p..e];
        }
        if e == names.len() {
            return &names[e..e];
        }
        p = e + 1;
        left -= 1;
    }
    &names[0..0]
}
