// Text on standard output, piece by piece. Of a piece that cannot be written `console` says so on standard error, where that then comes first.
use console::Console;

// Internal.
pub fn say(console: &mut Console, piece: &[u8]) {
    console.written(piece);
}

// Internal.
pub fn number(console: &mut Console, v: u64) {
    let mut text = [0u8; 20];
    let n = digits::count(v);
    digits::put_digits(&mut text, 0, n, v);
    console.written(&text[0..n]);
}

// Internal. The w lowest hexadecimal digits, 16 at most.
pub fn hex(console: &mut Console, v: u64, w: usize) {
    let mut text = [0u8; 16];
    if w <= 16 {
        digits::put_hex(&mut text, 0, w, v);
        console.written(&text[0..w]);
    }
}

fn byte(console: &mut Console, b: u8) {
    say(console, b" ");
    hex(console, b as u64, 2);
}

// Internal. Each byte after a space.
pub fn bytes(console: &mut Console, s: &[u8]) {
    for b in s {
        byte(console, *b);
    }
}

// Internal. A time in seconds, with all its microseconds.
pub fn seconds(console: &mut Console, time: u64) {
    let mut text = [0u8; 6];
    digits::put_digits(&mut text, 0, 6, time % 1_000_000);
    number(console, time / 1_000_000);
    say(console, b".");
    console.written(&text);
}

// Internal. The rule that a frame breaks, after its section.
pub fn rule(console: &mut Console, text: &[u8]) {
    say(console, b"rule:      RULES ");
    say(console, text);
    say(console, b"\n");
}

// Internal. How the line of what was expected begins.
pub fn expected(console: &mut Console, text: &[u8]) {
    say(console, b"expected:  ");
    say(console, text);
}
