// Messages by hand: one request a line on standard input, decode or encode, and one answer a line on standard output.
// Lines are gathered from large reads, and the answers to a read's lines are written together.
#![tactic(auto)]

mod allocation;
mod battery_info;
mod decode;
mod encode;
mod execute_opcode_request;
mod execute_opcode_response;
mod get_node_info_request;
mod get_node_info_response;
mod get_set_request;
mod get_set_response;
mod key_value;
mod log_message;
mod node_status;
mod numbers;
mod param_value;
mod raw_command;
mod request;

ghost use Rattle.std.specs.Prelude.{◌≤◌, length};

use codec_text::put;
use console::Console;
use std::process::ExitCode;

// A line may have 8,192 bytes.
const LONGEST: usize = 8192;

// How far the gathering is: the bytes of the unfinished line, LONGEST + 1 for any longer one, and the bytes of the answers.
#[derive(Clone, Copy)]
struct At {
    line: usize,
    out: usize,
}

// Answers the line that is in hand.
fn end_line(console: &mut Console, line: &[u8], n: usize, out: &mut [u8], at: usize) -> usize
    requires { 8192 ≤ length line.now }
{
    if LONGEST < n {
        return put::bytes(console, out, at, b"?\n");
    }
    let o = request::answer(console, &line[0..n], out, at);
    put::byte(console, out, o, 10)
}

// One more byte of the input.
fn step(console: &mut Console, line: &mut [u8], out: &mut [u8], a: At, b: u8) -> At
    requires { 8192 ≤ length line.old }
{
    let n = a.line;
    let at = a.out;
    if b == 10 {
        return At {
            line: 0,
            out: end_line(console, line, n, out, at),
        };
    }
    if n < LONGEST {
        line[n] = b;
        return At {
            line: n + 1,
            out: at,
        };
    }
    At {
        line: LONGEST + 1,
        out: at,
    }
}

fn chunk(console: &mut Console, src: &[u8], line: &mut [u8], out: &mut [u8], a: At) -> At
    requires { 8192 ≤ length line.old }
{
    let mut st = a;
    for b in src {
        st = step(console, line, out, st, *b);
    }
    st
}

// Reading or writing failed, and its line is on standard error.
#[derive(Clone, Copy)]
struct Failed;

// One read, and the answers to its lines: who types a request sees the answer before the next one. None at the end of the input.
fn some(console: &mut Console, line: &mut [u8], out: &mut [u8], a: At) -> Result<Option<At>, Failed>
    requires { 8192 ≤ length line.old }
{
    let mut buf = [0u8; 65536];
    let Some(n) = console.read(&mut buf) else {
        return Err(Failed);
    };
    if n == 0 {
        return Ok(None);
    }
    let after = chunk(console, &buf[..n], line, out, a);
    if !put::flush(console, out, after.out) {
        return Err(Failed);
    }
    Ok(Some(At {
        line: after.line,
        out: 0,
    }))
}

// Every line; one without line feed at the end of the input too.
fn all(console: &mut Console, line: &mut [u8], out: &mut [u8])
    requires { 8192 ≤ length line.old }
{
    let mut st = At { line: 0, out: 0 };
    for _ in 0..u64::MAX {
        match some(console, line, out, st) {
            Ok(Some(after)) => st = after,
            Ok(None) => break,
            Err(Failed) => return,
        }
    }
    last(console, line, out, st);
}

// The line without line feed, if there is one. All others are answered and written.
fn last(console: &mut Console, line: &[u8], out: &mut [u8], a: At)
    requires { 8192 ≤ length line.now }
{
    let n = a.line;
    if n == 0 {
        return;
    }
    let o = end_line(console, line, n, out, 0);
    put::flush(console, out, o);
}

fn main(rt: HostRuntime) -> ExitCode {
    let mut line = [0u8; 8192];
    let mut out = [0u8; 65536];
    let mut console = Console::new(rt.stdin(), rt.stdout(), rt.stderr());
    all(&mut console, &mut line, &mut out);
    console.status()
}
