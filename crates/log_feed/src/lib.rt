// The log program (RULES 12) but for reading and writing: blocks of input in, text out.
#![tactic(auto)]

ghost use Rattle.std.specs.Prelude.{◌≡◌, true, ◌+◌, ◌*◌, ◌-◌, ◌≤◌, length, take};
ghost use Rattle.bits.specs.Part.{span};
ghost use Rattle.state.specs.Layout.{size};
ghost use Rattle.state.specs.Sound.{sound_state};
ghost use Rattle.log_feed.specs.Log.{heading, begun};
ghost use Rattle.log_feed.specs.Feed.{feed as feed_of, finish as finish_of, BlockLaw};
ghost use Rattle.log_feed.specs.inside.Seen.{seen};
ghost use Rattle.log_feed.specs.inside.Lines.{Lined};

use log_replay::Counts;

const HEADING: [u8; 43] = *b"time kind type from to prio id len payload\n";

// After a block: the bytes of the unfinished line in front of the block's buffer, the length of the text, and the counts.
#[derive(Drop)]
pub struct Fed {
    pub kept: usize,
    pub len: usize,
    pub counts: Counts,
}

// Where the unfinished line begins, where the text ends, and the counts.
#[derive(Drop)]
struct Ran {
    from: usize,
    at: usize,
    counts: Counts,
}

// Internal. Sets the receiver up and writes the heading; its length.
pub fn start(state: &mut [u8], out: &mut [u8]) -> usize
    requires { (length state.old ≡ size) × (43 ≤ length out.old) }
    ensures out_after { (take result out.new ≡ heading) × (state.new ≡ begun) }
    ensures state_after { (sound_state state.new ≡ true) × (result ≤ 43) }
{
    let types = log_subscriptions::subscriptions();
    setup::setup(state, 1, &types).unwrap();
    bits::part::copy_at(out, 0, &HEADING);
    43
}

// Each line of a block that has its line feed.
fn lines(state: &mut [u8], block: &[u8], out: &mut [u8], counts: Counts) -> Ran
    requires { (sound_state state.old ≡ true) × (length block.now * 80 + 1200 ≤ length out.old) }
    ensures { Lined state.old counts block.now (length out.old) result state.new out.new }
{
    let mut c = counts;
    let mut from = 0;
    let mut at = 0;
    let mut end = digits::find(block, 0, b'\n');
    // A while: how far it goes on depends on where each line ends.
    while end < block.len() {
        let s = log_replay::line(state, &block[from..end + 1], c, out, at);
        c = s.counts;
        at = s.past;
        from = end + 1;
        end = digits::find(block, from, b'\n');
    }
    Ran {
        from: from,
        at: at,
        counts: c,
    }
}

// The n bytes from `from` on are moved to the front.
fn moved(block: &mut [u8], from: usize, n: usize) -> usize
    requires { (n ≤ 48) × (from + n ≤ length block.old) }
    ensures { (take result block.new ≡ span block.old from n) × (result ≡ n) }
{
    let mut rest = [0u8; 48];
    bits::part::copy_span(&mut rest, 0, block, from, n);
    bits::part::copy_span(block, 0, &rest, 0, n);
    n
}

// The bytes from `from` up to `to`, 48 of them at most, are moved to the front; how many.
fn keep(block: &mut [u8], from: usize, to: usize) -> usize
    requires { (from ≤ to) × (to ≤ length block.old) }
    ensures { (take result block.new ≡ take 48 (span block.old from (to - from))) × (result ≤ 48) }
{
    if to - from < 48 {
        return moved(block, from, to - from);
    }
    moved(block, from, 48)
}

// Internal. The first n bytes of the block's buffer: what was kept, and a block of input after it.
pub fn feed(state: &mut [u8], block: &mut [u8], n: usize, out: &mut [u8], counts: Counts) -> Fed
    requires { (sound_state state.old ≡ true) × ((n ≤ length block.old) × (n * 80 + 1200 ≤ length out.old)) }
    ensures out_after { seen result state.new block.new out.new ≡ feed_of state.old counts (take n block.old) }
    ensures state_after { (sound_state state.new ≡ true) × ((result.kept ≤ 48) × (result.len ≤ length out.old)) }
{
    let l = lines(state, &block[0..n], out, counts);
    let after = l.counts;
    Fed {
        kept: keep(block, l.from, n),
        len: l.at,
        counts: after,
    }
}

// Internal. After the last block: the text for what was kept of an unfinished line, and the last line of all; the length of both.
pub fn finish(state: &mut [u8], kept: &[u8], out: &mut [u8], counts: Counts) -> usize
    requires { (sound_state state.old ≡ true) × (length kept.now * 80 + 2400 ≤ length out.old) }
    ensures { (take result out.new ≡ finish_of state.old counts kept.now) × (result ≤ length out.old) }
{
    if kept.len() == 0 {
        return log_replay::end(out, 0, counts);
    }
    let s = log_replay::line(state, kept, counts, out, 0);
    let after = s.counts;
    log_replay::end(out, s.past, after)
}

// The law of specs/Feed.antt: a function with no body whose contract it is.
pub fn blocks()
    ensures { BlockLaw }
{}
