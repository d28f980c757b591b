// The program `judge` (RULES 19.11): a capture on standard input, which must be a file, or in the file that its argument names, and the verdict on
// standard output, with fixed memory. Reading is here; the verdict is that of `judge_capture`, a block of records at a time. ../../tecelume gives the
// exit status by what is on standard error.
#![tactic(auto)]

mod explain;
mod fault;
mod list;
mod text;
mod transfer;
mod verdict;

ghost use Rattle.std.specs.Prelude.{◌≡◌, ◌<◌, ◌≤◌, length};
ghost use Rattle.capture_record.specs.Record.{record_size};
ghost use Rattle.judge_streams.specs.inside.Table.{Table};
ghost use Rattle.state.specs.Layout.{size};

use capture_convert::trailer::Trailer;
use capture_file::OpenError;
use console::{Console, Progress};
use judge_capture::records;
use judge_stream::Condition;
use judge_streams::SIZE;
use std::fs::File;
use std::process::ExitCode;
use std::rt::{Env, Files};

// The first frame at fault, and the condition that it fails.
#[derive(Clone, Copy)]
struct First {
    condition: Condition,
    frame: u64,
}

// Records: how many are left and how many were read; the checksum of these; the frame at fault, if there is one so far; whether reading failed. A
// flag: how many were read is told after a failure too.
#[derive(Clone, Copy)]
struct Rest {
    left: usize,
    done: u64,
    sum: u16,
    first: Option<First>,
    failed: bool,
}

// The records of a block, unless a frame before them is at fault. The record of one that is, is kept.
fn feed(state: &[u8], table: &mut [u64; SIZE], block: &[u8], kept: &mut [u8], s: Rest) -> Rest
    requires { (size ≤ length state.now) × (Table table.old × (length kept.old ≡ record_size)) }
    ensures { (result.left ≡ s.left) × Table table.new }
{
    if s.first.is_some() {
        return s;
    }
    match records::feed(state, table, block) {
        Ok(()) => s,
        Err(failure) => {
            bits::part::copy_span(
                kept,
                0,
                block,
                failure.index * capture_record::SIZE,
                capture_record::SIZE,
            );
            Rest {
                first: Some(First {
                    condition: failure.condition,
                    frame: s.done.wrapping_add(failure.index as u64),
                }),
                ..s
            }
        }
    }
}

// One block: read, judged, summed. Where reading fails, none is left.
fn turn(
    console: &Console,
    file: &mut File,
    state: &[u8],
    table: &mut [u64; SIZE],
    block: &mut [u8],
    kept: &mut [u8],
    s: Rest,
) -> Rest
    requires { (0 < s.left) × ((size ≤ length state.now) × (Table table.old × (length kept.old ≡ record_size))) }
    ensures { (result.left < s.left) × Table table.new }
{
    let k = capture_file::next(file, block, s.left);
    let n = k * capture_record::SIZE;
    let mut r = s;
    if k == 0 {
        console.cannot_read();
        r.left = 0;
        r.failed = true;
        return r;
    }
    r = feed(state, table, &block[0..n], kept, s);
    r.sum = checksum_table::over(s.sum, &block[0..n]);
    r.left = s.left - k;
    r.done = s.done.wrapping_add(k as u64);
    r
}

// All records are read: a wrong checksum comes before any frame at fault.
fn finish(
    console: &mut Console,
    progress: &mut Progress,
    state: &[u8],
    table: &[u64; SIZE],
    kept: &[u8],
    t: Trailer,
    s: Rest,
)
    requires { (size ≤ length state.now) × (Table table.now × (length kept.now ≡ record_size)) }
{
    if s.failed {
        return;
    }
    progress.ends();
    if s.sum as u64 != t.sum {
        return verdict::no_capture(console);
    }
    let Some(first) = s.first else {
        return verdict::passes(console, s.done);
    };
    let number = first.condition.0;
    verdict::fails(console, number, first.frame, s.done);
    explain::explain(console, state, table, kept, number);
    verdict::told(console, number);
}

// All records, from where the file stands. From time to time a line on descriptor 3 says how far it is.
fn run(
    console: &mut Console,
    file: &mut File,
    progress: &mut Progress,
    state: &[u8],
    table: &mut [u64; SIZE],
    block: &mut [u8],
    kept: &mut [u8],
    t: Trailer,
)
    requires { (size ≤ length state.now) × (Table table.old × (length kept.old ≡ record_size)) }
{
    let mut s = Rest {
        left: t.count,
        done: 0,
        sum: 0xFFFF,
        first: None,
        failed: false,
    };
    // A while: how many records a block has depends on the file.
    while 0 < s.left {
        s = turn(console, file, state, table, block, kept, s);
        capture_file::tell(progress, s.done);
    }
    finish(console, progress, state, table, kept, t, s);
}

fn whole(
    rt: &(impl Files<File = File> + Env),
    console: &mut Console,
    state: &mut [u8],
    table: &mut [u64; SIZE],
    block: &mut [u8],
    kept: &mut [u8],
)
    requires { (size ≤ length state.old) × (Table table.old × (length kept.old ≡ record_size)) }
{
    if list::accepted(rt, console, state) {
        let mut progress = console::open_progress(rt);
        match capture_file::open(rt) {
            Ok((mut file, t)) => run(
                console,
                &mut file,
                &mut progress,
                state,
                table,
                block,
                kept,
                t,
            ),
            Err(OpenError::NoCapture) => verdict::no_capture(console),
            Err(OpenError::Unreadable) => console.cannot_read(),
        }
    }
}

fn main(rt: HostRuntime) -> ExitCode {
    let mut state = [0u8; state::layout::SIZE];
    let mut table = [0u64; SIZE];
    let mut block = [0u8; capture_file::BLOCK];
    let mut kept = [0u8; capture_record::SIZE];
    let mut console = Console::new(rt.stdin(), rt.stdout(), rt.stderr());
    whole(
        &rt,
        &mut console,
        &mut state,
        &mut table,
        &mut block,
        &mut kept,
    );
    console.status()
}
