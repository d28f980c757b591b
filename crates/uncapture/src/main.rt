// The program `uncapture` (RULES 18.7): a capture on standard input, which must be a file, or in the file that its argument names; its log on standard
// output, a block at a time. Reading and writing are here; trailer, records, checksum and lines are those of `capture_file` and `capture_convert`. A refusal is a line on standard error; what
// was written is then worth nothing, and ../../tecelume throws it away.
#![tactic(auto)]

ghost use Rattle.std.specs.Prelude.{◌≡◌, ◌<◌, ◌≤◌, length};

use capture_convert::lines;
use capture_convert::trailer::Trailer;
use capture_file::OpenError;
use console::{Console, Progress};
use std::fs::File;
use std::process::ExitCode;
use std::rt::{Env, Files};

// Room for the lines of a block, each as long as any.
const OUT: usize = 48128;

// Records: how many are left and how many were read; the checksum of these; the first that no line can carry, counted from 1; whether reading or
// writing failed. A flag: how many were read is told after a failure too.
#[derive(Clone, Copy)]
struct Rest {
    left: usize,
    done: u64,
    sum: u16,
    bad: Option<u64>,
    failed: bool,
}

fn no_capture(console: &Console) {
    console.say("22: not a capture, or damaged\n");
}

// 23, with the record, if there is one.
fn judged(console: &Console, bad: Option<u64>) {
    match bad {
        None => console.done(),
        Some(record) => console.say(format_args!("23: no log line can carry record {record}\n")),
    }
}

// The lines of a block's records are written; whether that failed.
fn print(console: &mut Console, records: &[u8], out: &mut [u8], s: Rest) -> Rest
    requires { (length records.now ≤ 21504) × (length out.old ≡ 48128) }
    ensures { result.left ≡ s.left }
{
    let mut r = s;
    if s.bad.is_some() {
        return r;
    }
    if let Err(count) = lines::measure(records) {
        r.bad = Some(s.done.wrapping_add(count as u64).wrapping_add(1));
        return r;
    }
    let len = lines::lines(records, out);
    r.failed = !console.written(&out[0..len]);
    r
}

// One block: read, printed, summed. Where reading fails, none is left.
fn turn(console: &mut Console, file: &mut File, block: &mut [u8], out: &mut [u8], s: Rest) -> Rest
    requires { (0 < s.left) × ((length block.old ≡ 21504) × (length out.old ≡ 48128)) }
    ensures { result.left < s.left }
{
    let k = capture_file::next(file, block, s.left);
    let n = k * capture_record::SIZE;
    let mut r = s;
    if k == 0 {
        console.cannot_read();
        r.left = 0;
        r.failed = true;
        return r;
    }
    r = print(console, &block[0..n], out, s);
    r.sum = checksum::crc16::over(s.sum, &block[0..n]);
    r.left = s.left - k;
    r.done = s.done.wrapping_add(k as u64);
    r
}

// All records, from where the file stands. From time to time a line on descriptor 3 says how far it is.
fn run(
    console: &mut Console,
    file: &mut File,
    progress: &mut Progress,
    block: &mut [u8],
    out: &mut [u8],
    t: Trailer,
)
    requires { (length block.old ≡ 21504) × (length out.old ≡ 48128) }
{
    let mut s = Rest {
        left: t.count,
        done: 0,
        sum: 0xFFFF,
        bad: None,
        failed: false,
    };
    // A while: how far it goes on depends on how many records each read gives.
    while 0 < s.left && !s.failed {
        s = turn(console, file, block, out, s);
        capture_file::tell(progress, s.done);
    }
    if s.failed {
        return;
    }
    if s.sum as u64 == t.sum {
        return judged(console, s.bad);
    }
    no_capture(console);
}

fn whole(
    rt: &(impl Files<File = File> + Env),
    console: &mut Console,
    block: &mut [u8],
    out: &mut [u8],
)
    requires { (length block.old ≡ 21504) × (length out.old ≡ 48128) }
{
    let mut progress = console::open_progress(rt);
    match capture_file::open(rt) {
        Ok((mut file, t)) => run(console, &mut file, &mut progress, block, out, t),
        Err(OpenError::NoCapture) => no_capture(console),
        Err(OpenError::Unreadable) => console.cannot_read(),
    }
}

fn main(rt: HostRuntime) -> ExitCode {
    let mut block = [0u8; capture_file::BLOCK];
    let mut out = [0u8; OUT];
    let mut console = Console::new(rt.stdin(), rt.stdout(), rt.stderr());
    whole(&rt, &mut console, &mut block, &mut out);
    console.status()
}
