// The frame at fault, as it is shown: its line or its fields, its stream, its tail byte.
ghost use Rattle.std.specs.Prelude.{◌≡◌, length};
ghost use Rattle.capture_record.specs.Record.{record_size};

use super::text;
use capture_convert::lines;
use console::Console;
use frame::head::Head;

// What its record says. The head is that of the ID's lower 29 bits.
#[derive(Clone, Copy)]
pub struct Fault {
    pub id: u32,
    pub len: usize,
    pub head: Head,
}

// The tail byte; 0 if there is none.
fn tail(r: &[u8], len: usize) -> u8
    requires { length r.now ≡ record_size }
{
    if 0 < len {
        if len <= 8 {
            return r[12 + len];
        }
    }
    0
}

// Internal.
pub fn read(r: &[u8]) -> Fault
    requires { length r.now ≡ record_size }
{
    let s = capture_record::read(r);
    let len = s.len;
    Fault {
        id: s.id,
        len: len,
        head: frame::head::read(s.id % 0x2000_0000, tail(r, len)),
    }
}

fn show_fields(console: &mut Console, r: &[u8])
    requires { length r.now ≡ record_size }
{
    let s = capture_record::read(r);
    text::say(console, b"time ");
    text::seconds(console, s.time);
    text::say(console, b" ID ");
    text::hex(console, s.id as u64, 8);
    text::say(console, b" length ");
    text::number(console, s.len as u64);
    text::say(console, b" data");
    text::bytes(console, &r[13..21]);
    text::say(console, b" (no log line can carry it, RULES 18.4)\n");
}

// Its line, or its fields where no line can carry it.
fn show_frame(console: &mut Console, r: &[u8])
    requires { length r.now ≡ record_size }
{
    let mut out = [0u8; 47];
    text::say(console, b"frame:     ");
    if let Ok(_) = lines::measure(r) {
        let n = lines::lines(r, &mut out);
        return text::say(console, &out[0..n]);
    }
    show_fields(console, r);
}

// Message, request or response, and its type.
fn show_type(console: &mut Console, h: Head) {
    let transfer_type = h.transfer_type;
    match transfer_type {
        0 => text::say(console, b"message"),
        1 => text::say(console, b"request"),
        _ => text::say(console, b"response"),
    }
    text::say(console, b" of type ");
    text::number(console, h.type_id as u64);
}

fn show_nodes(console: &mut Console, h: Head) {
    if frame::check::is_anonymous(h) {
        return;
    }
    text::say(console, b" from node ");
    text::number(console, h.source as u64);
    if 0 < h.transfer_type {
        text::say(console, b" to node ");
        text::number(console, h.destination as u64);
    }
}

fn show_stream(console: &mut Console, f: Fault) {
    let h = f.head;
    text::say(console, b"stream:    ");
    if 0x2000_0000 <= f.id {
        return text::say(console, b"none: the ID has more than 29 bits\n");
    }
    if frame::check::is_anonymous(h) {
        text::say(console, b"none: anonymous ");
    }
    show_type(console, h);
    show_nodes(console, h);
    text::say(console, b"; priority ");
    text::number(console, h.priority as u64);
    text::say(console, b"\n");
}

fn show_tail(console: &mut Console, f: Fault) {
    let h = f.head;
    text::say(console, b"tail byte: ");
    if f.len == 0 || 8 < f.len {
        return text::say(console, b"none\n");
    }
    if h.start {
        text::say(console, b"start, ");
    }
    if h.end {
        text::say(console, b"end, ");
    }
    text::say(console, b"toggle ");
    text::number(console, h.toggle as u64);
    text::say(console, b", transfer ID ");
    text::number(console, h.transfer as u64);
    text::say(console, b"\n");
}

// Internal. The lines of the frame, its stream and its tail byte.
pub fn show(console: &mut Console, r: &[u8], f: Fault)
    requires { length r.now ≡ record_size }
{
    show_frame(console, r);
    show_stream(console, f);
    show_tail(console, f);
}
