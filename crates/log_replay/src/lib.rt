// The log program's work on one line (RULES 12.8): reading it, receiving its frame, writing the answer, counting.
#![tactic(auto)]

ghost use Rattle.std.specs.Prelude.{◌≡◌, true, [], ◌+◌, ◌*◌, ◌≤◌, ◌<◌, length};
ghost use Rattle.std.proofs.Math.Option.{none};
ghost use Rattle.log_line.specs.Reading.{said, line_in};
ghost use Rattle.log_replay.specs.Replay.{up as up_of, counted as counted_of, is_handed, end_text, reply};
ghost use Rattle.log_replay.specs.inside.Call.{room, returned, given, replayed};
ghost use Rattle.digits.specs.inside.Text.{Puts};
ghost use Rattle.state.specs.Sound.{sound_state};

use answers::Answer;
use log_line::read::Line;
use rules::limits::PAYLOAD;

// Lines read and transfers handed out.
#[derive(Clone, Copy)]
pub struct Counts {
    pub lines: u64,
    pub transfers: u64,
}

// Where the text for a line ends, and the counts after it.
#[derive(Drop)]
pub struct Said {
    pub past: usize,
    pub counts: Counts,
}

fn up(n: u64) -> u64
    ensures { result ≡ up_of n }
{
    if n < 0xFFFF_FFFF_FFFF_FFFF {
        return n + 1;
    }
    n
}

fn counted(c: Counts, handed: bool) -> Counts
    ensures { result ≡ counted_of c handed }
{
    let lines = up(c.lines);
    if handed {
        return Counts {
            lines: lines,
            transfers: up(c.transfers),
        };
    }
    Counts {
        lines: lines,
        transfers: c.transfers,
    }
}

// By the number and not by the case: so `is_handed` of specs/Replay.antt has it, for any number that a refusal may hold.
fn is_handed(a: Answer) -> bool
    ensures { result ≡ is_handed a }
{
    a.number() == 1
}

// A line that is not well formed: `? - 18`.
fn refuse(out: &mut [u8], at: usize, c: Counts) -> Said
    requires { at + room ≤ length out.old }
    ensures { (result ≡ (given c out.old at (reply [] none)).said) × ((out.new ≡ (given c out.old at (reply [] none)).out) × (result.past ≤ at + 80)) }
{
    out[at] = b'?';
    let past = log_answer::numbered(out, at + 1, b'-', 18);
    Said {
        past: past,
        counts: counted(c, false),
    }
}

// A well-formed line. The receiver's state has no fault, and has none after.
fn receive(state: &mut [u8], l: Line, line: &[u8], c: Counts, out: &mut [u8], at: usize) -> Said
    requires { (line_in line.now ≡ Some l) × ((sound_state state.old ≡ true) × (at + room ≤ length out.old)) }
    ensures out_after { returned result state.new out.new ≡ replayed state.old line.now c out.old at }
    ensures fact { (sound_state state.new ≡ true) × (result.past ≤ at + length line.now * 80) }
{
    guarantees::state_lasts();
    let bytes = l.bytes;
    let n = l.len;
    let head = l.head;
    let mut payload = [0u8; PAYLOAD];
    let a = receiver::receive_sound(state, l.id, &bytes[0..n], 0, l.time, &mut payload);
    bits::part::copy_at(out, at, &line[0..head]);
    let past = log_answer::put_answer(out, at + head, a, &payload);
    Said {
        past: past,
        counts: counted(c, is_handed(a)),
    }
}

// Internal. One line of a log, its line feed included: the text for it in the output buffer from `at` on, the receiver's state after it, and
// the counts. A line that is not well formed is answered in the text (18) and leaves the receiver as it was.
pub fn line(state: &mut [u8], line: &[u8], c: Counts, out: &mut [u8], at: usize) -> Said
    requires { (sound_state state.old ≡ true) × ((0 < length line.now) × (at + room ≤ length out.old)) }
    ensures out_after { returned result state.new out.new ≡ replayed state.old line.now c out.old at }
    ensures fact { (sound_state state.new ≡ true) × (result.past ≤ at + length line.now * 80) }
{
    match log_line::read::read(line) {
        Some(l) => receive(state, l, line, c, out, at),
        None => refuse(out, at, c),
    }
}

// Internal. The last line.
pub fn end(out: &mut [u8], at: usize, c: Counts) -> usize
    requires { at + room ≤ length out.old }
    ensures { (Puts out.old out.new at result (end_text c)) × (result ≤ at + 46) }
{
    out[at] = b'e';
    out[at + 1] = b'n';
    out[at + 2] = b'd';
    let vs = [c.lines, c.transfers];
    let p = digits::put_words(out, at + 3, &vs);
    out[p] = 10;
    p + 1
}
