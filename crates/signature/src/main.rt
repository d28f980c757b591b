// The program signature: type definitions on standard input, the signature of each on standard output, or a refusal on standard error. The
// input is a byte that is 1 if forms are wanted, a byte that says how many definitions there are, at most nine, and then the lengths and the
// source of RULES 17.12. ../../tecelume puts it together, and says more of a refusal.
#![tactic(auto)]

ghost use Rattle.std.specs.Prelude.{◌≤◌, length, IfSome};

use bits::le;
use console::Console;
use dsdl_signature::answer::Refusal;
use std::process::ExitCode;

// Nine definitions, one more than there may be, with names of 4,096 bytes and texts of 4,097.
const INPUT: usize = 74000;

// More than eight forms can have. The longest has a name of 80 characters, a marker, and 839 fields of a nested type with such a name, from
// lines of four and five bytes: 70,458 bytes.
const OUT: usize = 564000;

// The signature as 16 digits, and the line's end.
fn show_signature(console: &mut Console, signature: u64) -> bool {
    let mut text = [0u8; 16];
    digits::put_hex(&mut text, 0, 16, signature);
    console.written(b" 0x") && console.written(&text) && console.written(b"\n")
}

// A form begins with the name.
fn show(console: &mut Console, form: &[u8], name: usize, signature: u64, forms: bool) -> bool {
    if form.len() < name {
        return false;
    }
    if !console.written(&form[0..name]) || !show_signature(console, signature) {
        return false;
    }
    if forms {
        return console.written(form) && console.written(b"\n");
    }
    true
}

// One definition, whose form begins at `at`. Where the next one begins; None if this one cannot be written.
fn show_next(
    console: &mut Console,
    out: &[u8],
    at: usize,
    name: u64,
    length: u64,
    signature: u64,
    forms: bool,
) -> Option<usize> {
    let end = at.checked_add(length as usize)?;
    let form = out.get(at..end)?;
    if show(console, form, name as usize, signature, forms) {
        Some(end)
    } else {
        None
    }
}

// The definitions in their order, up to the first that cannot be written.
fn show_all(console: &mut Console, out: &[u8], lengths: &[u8], records: &[u8], forms: bool) {
    let mut at = 0;
    for (l, r) in lengths.chunks_exact(8).zip(records.chunks_exact(12)) {
        let name = le::get_at(l, 0, 4);
        let length = le::get_at(r, 0, 4);
        let signature = le::get_at(r, 4, 8);
        let Some(next) = show_next(console, out, at, name, length, signature, forms) else {
            return;
        };
        at = next;
    }
}

fn space_and(console: &Console, number: u32) {
    console.say(format_args!(" {number}"));
}

// A refusal is its number; with 40 also definition and line.
fn refuse(console: &Console, refusal: Refusal) {
    let number = refusal.number();
    console.say(format_args!("{number}"));
    if let Refusal::Faulty(fault) = refusal {
        space_and(console, fault.definition);
        space_and(console, fault.line.0);
    }
    console.say("\n");
}

// The whole input: its definitions, and what they answer. What has another form counts as a failed read.
fn run(console: &mut Console, input: &[u8], out: &mut [u8]) {
    if input.len() < 2 {
        console.cannot_read();
        return;
    }
    let count = input[1] as usize;
    let start = 2 + count * 8;
    if 9 < count || input.len() < start {
        console.cannot_read();
        return;
    }
    let lengths = &input[2..start];
    let mut records = [0u8; 96];
    match dsdl_signature::call::signatures(&input[start..], lengths, out, &mut records) {
        Ok(()) => show_all(console, out, lengths, &records, input[0] == 1),
        Err(refusal) => refuse(console, refusal),
    }
}

// How much of the input there is; None, and a line on standard error, if reading fails.
fn gather(console: &mut Console, input: &mut [u8]) -> Option<usize>
    ensures { IfSome result (λ n. n ≤ length input.new) }
{
    let mut n = 0;
    for _ in 0..INPUT {
        if n == input.len() {
            break;
        }
        let more = console.read(&mut input[n..])?;
        if more == 0 {
            break;
        }
        n += more;
    }
    Some(n)
}

fn whole(console: &mut Console, input: &mut [u8], out: &mut [u8]) {
    if let Some(n) = gather(console, input) {
        run(console, &input[..n], out);
    }
}

fn main(rt: HostRuntime) -> ExitCode {
    let mut input = [0u8; INPUT];
    let mut out = [0u8; OUT];
    let mut console = Console::new(rt.stdin(), rt.stdout(), rt.stderr());
    whole(&mut console, &mut input, &mut out);
    console.status()
}
