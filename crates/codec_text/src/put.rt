// Answers' text, gathered in a buffer that is written out when it is full.
use console::Console;

// Internal. Writes out what is gathered; false if that fails.
pub fn flush(console: &mut Console, out: &[u8], at: usize) -> bool {
    if at <= out.len() {
        return console.written(&out[0..at]);
    }
    true
}

fn first(out: &mut [u8], b: u8) -> usize {
    if 0 < out.len() {
        out[0] = b;
        return 1;
    }
    0
}

// Internal.
pub fn byte(console: &mut Console, out: &mut [u8], at: usize, b: u8) -> usize {
    if at < out.len() {
        out[at] = b;
        return at + 1;
    }
    flush(console, out, at);
    first(out, b)
}

// Internal.
pub fn bytes(console: &mut Console, out: &mut [u8], at: usize, s: &[u8]) -> usize {
    let mut o = at;
    for b in s {
        o = byte(console, out, o, *b);
    }
    o
}

// Internal.
pub fn decimal(console: &mut Console, out: &mut [u8], at: usize, v: u64) -> usize {
    let mut d = [0u8; 20];
    let n = digits::count(v);
    digits::put_digits(&mut d, 0, n, v);
    bytes(console, out, at, &d[0..n])
}

fn pair(console: &mut Console, out: &mut [u8], at: usize, s: &[u8; 1]) -> usize {
    let mut d = [0u8; 2];
    digits::put_hexes(&mut d, 0, s);
    bytes(console, out, at, &d)
}

// Internal. A list: a dash if it is empty.
pub fn list(console: &mut Console, out: &mut [u8], at: usize, s: &[u8]) -> usize {
    if s.len() == 0 {
        return byte(console, out, at, 45);
    }
    let mut o = at;
    for b in s {
        o = pair(console, out, o, &[*b]);
    }
    o
}

// Internal. The answer to a line that is not well formed.
pub fn ill_formed(console: &mut Console, out: &mut [u8], at: usize) -> usize {
    byte(console, out, at, 63)
}
