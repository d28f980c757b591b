// The log program (RULES 12): standard input to standard output, a block at a time. Reading and writing are here, all else is in `log_feed`.
#![tactic(auto)]

ghost use Rattle.std.specs.Prelude.{◌≡◌, true, ◌≤◌, length, IfSome, IfOk};
ghost use Rattle.state.specs.Layout.{size};
ghost use Rattle.state.specs.Sound.{sound_state};

use console::Console;
use log_replay::Counts;
use state::layout::SIZE;
use std::process::ExitCode;

// A block, with what was kept in front of it. A byte of input gives 80 of text at most.
const BLOCK: usize = 8192;

const OUT: usize = 656560;

// After a block: how many bytes of an unfinished line are in front of the buffer; the counts.
#[derive(Clone, Copy)]
struct After {
    kept: usize,
    counts: Counts,
}

// Reading or writing failed, and its line is on standard error.
#[derive(Clone, Copy)]
struct Failed;

// One read: its lines, and what they gave is written. None at the end of the input.
fn turn(
    console: &mut Console,
    state: &mut [u8],
    block: &mut [u8],
    out: &mut [u8],
    s: After,
) -> Result<Option<After>, Failed>
    requires { (sound_state state.old ≡ true) × ((s.kept ≤ 48) × ((length block.old ≡ 8192) × (length out.old ≡ 656560))) }
    ensures { (sound_state state.new ≡ true) × IfOk result (λ o. IfSome o (λ s. s.kept ≤ 48)) }
{
    let kept = s.kept;
    let Some(got) = console.read(&mut block[kept..]) else {
        return Err(Failed);
    };
    if got == 0 {
        return Ok(None);
    }
    let f = log_feed::feed(state, block, kept + got, out, s.counts);
    if !console.written(&out[0..f.len]) {
        return Err(Failed);
    }
    Ok(Some(After {
        kept: f.kept,
        counts: f.counts,
    }))
}

// All blocks, and the end, which is not told after a failure.
fn run(console: &mut Console, state: &mut [u8], block: &mut [u8], out: &mut [u8])
    requires { (sound_state state.old ≡ true) × ((length block.old ≡ 8192) × (length out.old ≡ 656560)) }
{
    let mut s = After {
        kept: 0,
        counts: Counts {
            lines: 0,
            transfers: 0,
        },
    };
    for _ in 0..u64::MAX {
        match turn(console, state, block, out, s) {
            Ok(Some(after)) => s = after,
            Ok(None) => break,
            Err(Failed) => return,
        }
    }
    let n = log_feed::finish(state, &block[0..s.kept], out, s.counts);
    console.written(&out[0..n]);
}

// The heading, and all that follows.
fn whole(console: &mut Console, state: &mut [u8], block: &mut [u8], out: &mut [u8])
    requires { (length state.old ≡ size) × ((length block.old ≡ 8192) × (length out.old ≡ 656560)) }
{
    let n = log_feed::start(state, out);
    if console.written(&out[0..n]) {
        run(console, state, block, out);
    }
}

fn main(rt: HostRuntime) -> ExitCode {
    let mut state = [0u8; SIZE];
    let mut block = [0u8; BLOCK];
    let mut out = [0u8; OUT];
    let mut console = Console::new(rt.stdin(), rt.stdout(), rt.stderr());
    whole(&mut console, &mut state, &mut block, &mut out);
    console.status()
}
