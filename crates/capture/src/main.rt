// The program `capture` (RULES 18.7): a log on standard input, its capture on standard output, a block at a time. Reading and writing are here; lines,
// records, checksum and trailer are those of `capture_convert`. A refusal is a line on standard error; what was written is then worth nothing, and
// ../../tecelume throws it away.
#![tactic(auto)]

ghost use Rattle.std.specs.Prelude.{◌≡◌, ◌≤◌, length, IfSome, IfOk};

use capture_convert::{records, trailer};
use console::{Console, Progress};
use std::process::ExitCode;

// A block, with what was kept in front of it, and room for as many records as it could have lines.
const BLOCK: usize = 32768;

const OUT: usize = 688128;

// More lines than a capture's count can tell.
const LINES_OVER: u64 = 0x1_0000_0000;

// After a block: how many bytes of an unfinished line are in front of the buffer; the lines so far, and the checksum of their records.
#[derive(Clone, Copy)]
struct After {
    kept: usize,
    count: u64,
    sum: u16,
}

// A refusal or a failure, whose line is on standard error.
#[derive(Clone, Copy)]
struct Told;

// The bytes from `from` up to `to` are moved to the front; how many.
fn keep(block: &mut [u8], from: usize, to: usize) -> usize
    requires { (from ≤ to) × (to ≤ length block.old) }
    ensures { result ≤ to }
{
    block.copy_within(from..to, 0);
    to - from
}

// 18, with the line.
fn ill_formed(console: &Console, line: u64) {
    console.say(format_args!("18: not a well-formed log, line {line}\n"));
}

// Writes records, unless there are too many lines already.
fn stored(console: &mut Console, records: &[u8], count: u64) -> bool {
    if LINES_OVER <= count {
        return true;
    }
    console.written(records)
}

// The lines among the first n bytes of the block: their records are written, and what follows them is kept.
fn feed(
    console: &mut Console,
    block: &mut [u8],
    n: usize,
    out: &mut [u8],
    s: After,
) -> Result<After, Told>
    requires { (n ≤ 32768) × ((length block.old ≡ 32768) × (length out.old ≡ 688128)) }
    ensures { IfOk result (λ s. s.kept ≤ 32768) }
{
    match records::records(&block[0..n], out) {
        Err(lines) => {
            ill_formed(console, s.count.wrapping_add(lines as u64).wrapping_add(1));
            Err(Told)
        }
        Ok(r) => {
            let size = r.count * capture_record::SIZE;
            let count = s.count.wrapping_add(r.count as u64);
            if !stored(console, &out[0..size], count) {
                return Err(Told);
            }
            Ok(After {
                kept: keep(block, r.from, n),
                count,
                sum: checksum::crc16::over(s.sum, &out[0..size]),
            })
        }
    }
}

// One read; None at the end of the input.
fn turn(
    console: &mut Console,
    block: &mut [u8],
    out: &mut [u8],
    s: After,
) -> Result<Option<After>, Told>
    requires { (s.kept ≤ 32768) × ((length block.old ≡ 32768) × (length out.old ≡ 688128)) }
    ensures { IfOk result (λ o. IfSome o (λ s. s.kept ≤ 32768)) }
{
    let kept = s.kept;
    let Some(got) = console.read(&mut block[kept..]) else {
        return Err(Told);
    };
    if got == 0 {
        return Ok(None);
    }
    let after = feed(console, block, kept + got, out, s)?;
    Ok(Some(after))
}

// After the last block: an unfinished line, too many lines, or the trailer.
fn end(console: &mut Console, out: &mut [u8], s: After)
    requires { length out.old ≡ 688128 }
{
    if 0 < s.kept {
        return ill_formed(console, s.count.wrapping_add(1));
    }
    let count = s.count;
    if LINES_OVER <= count {
        return console.say("9: more lines than a capture can count\n");
    }
    trailer::put(out, 0, count as usize, s.sum);
    if console.written(&out[0..trailer::SIZE]) {
        console.done();
    }
}

// All blocks, and the end, which does not come after a refusal or a failure. From time to time a line on descriptor 3 says how far it is.
fn run(console: &mut Console, progress: &mut Progress, block: &mut [u8], out: &mut [u8])
    requires { (length block.old ≡ 32768) × (length out.old ≡ 688128) }
{
    let mut s = After {
        kept: 0,
        count: 0,
        sum: 0xFFFF,
    };
    for reads in 1..u64::MAX {
        let after = turn(console, block, out, s);
        if reads % 2048 == 2047 {
            progress.tell(reads / 32);
        }
        match after {
            Ok(Some(next)) => s = next,
            Ok(None) => break,
            Err(Told) => return,
        }
    }
    end(console, out, s);
}

fn main(rt: HostRuntime) -> ExitCode {
    let mut block = [0u8; BLOCK];
    let mut out = [0u8; OUT];
    let mut progress = console::open_progress(&rt);
    let mut console = Console::new(rt.stdin(), rt.stdout(), rt.stderr());
    run(&mut console, &mut progress, &mut block, &mut out);
    console.status()
}
