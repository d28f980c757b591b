// A frame's session (RULES 4.3): the place that it has, or gets, and what the frame does there.
ghost use Rattle.std.specs.Prelude.{◌≡◌, true, false, not, ◌&&◌, [], ◌+◌, ◌≤◌, ◌<◌, ltb, length};
ghost use Rattle.std.specs.Int.Count.{count_trailing_zeros};
ghost use Rattle.rules.specs.Blocks.{need, asks, free_block, cleared};
ghost use Rattle.rules.specs.Limits.{sessions_max, gathered_max, interfaces_max, blocks_max};
ghost use Rattle.rules.specs.Reception.{store, step_ask, step_at, step_new, step_held, step_seek};
ghost use Rattle.rules.specs.Session.{waiting, next, proceed};
ghost use Rattle.rules.specs.Table.{seek, holds, place_for};
ghost use Rattle.rules.specs.Tests.{pick, is_none};
ghost use Rattle.receiver.specs.inside.Place.{Met, Takes};
ghost use Rattle.receiver.specs.Receive.{returned, lent};
ghost use Rattle.receiver.specs.inside.Called.{Called};
ghost use Rattle.session.specs.inside.Session.{idle, stream_of, parsed_of};
ghost use Rattle.sessions.specs.inside.Place.{grown_blocks};
ghost use Rattle.state.specs.Layout.{free_of, key_at, count_at, blocks_of, session_at, place_at, places_of};
ghost use Rattle.state.specs.Place.{written};
ghost use Rattle.state.specs.inside.Ready.{Ready};
ghost use Rattle.frame.specs.Key.{key_of};

use answers::{Answer, Reason};
use rules::limits::{GATHERED, SESSIONS};
use session::{Incoming, Session};
use sessions::scan::Want;
use sessions::{gathered, place, relief};

// The frame is a whole transfer.
fn is_single(f: Incoming) -> bool
    ensures { result ≡ (f.head.start && f.head.end) }
{
    if f.head.start {
        return f.head.end;
    }
    false
}

// The session once the transfer is over: nothing in hand, waiting for the next one. A start sets the time.
fn over(c: Session, f: Incoming) -> Session
    requires { (c.expected < 32) × (c.len ≤ gathered_max) }
    ensures { result ≡ idle (next c.expected) (pick f.head.start f.time c.time) c.follows }
{
    let next = (c.expected + 1) % 32;
    if f.head.start {
        return Session::fresh(next, f.time, c.follows);
    }
    Session::fresh(next, c.time, c.follows)
}

// The last of several frames: the bytes in hand and its own are gathered, and the checksum decides.
fn close(
    state: &mut [u8],
    i: usize,
    k: u32,
    c: Session,
    f: Incoming,
    p: &[u8],
    out: &mut [u8],
) -> Answer
    requires { Met state.old i k c f p.now out.old × (Takes state.old i f p.now × (f.head.end ≡ true)) }
    ensures { returned result state.new out.new ≡ lent state.old out.old (store (places_of state.old) i (stream_of f) [] (proceed (session_at state.old i) (parsed_of f p.now))) }
{
    let mut all = [0u8; GATHERED];
    let len = c.len;
    gathered::gather(state, i, len, &mut all);
    bits::part::copy_at(&mut all, len, p);
    place::wait(state, i, k, over(c, f));
    session::finish(&all, len + p.len(), f, out)
}

// The frame is taken into the session of place i. There is a block, if it needs one.
fn enter(
    state: &mut [u8],
    i: usize,
    k: u32,
    c: Session,
    f: Incoming,
    p: &[u8],
    out: &mut [u8],
) -> Answer
    requires { Met state.old i k c f p.now out.old × (Takes state.old i f p.now × (need (count_at state.old i) < need (count_at state.old i + length p.now) → count_trailing_zeros blocks_max (free_of state.old) < blocks_max)) }
    ensures { returned result state.new out.new ≡ lent state.old out.old (store (places_of state.old) i (stream_of f) (grown_blocks state.old i (count_at state.old i + length p.now)) (proceed (session_at state.old i) (parsed_of f p.now))) }
{
    if f.head.end {
        return close(state, i, k, c, f, p, out);
    }
    place::grow(state, i, c.take(f.head.start, f.time, p.len()), p);
    Answer::Taken
}

// The n bytes of a session and these more need one more block, and none is free, even once old sessions are emptied at the time t.
fn lacks_block(state: &mut [u8], t: u64, n: usize, more: usize) -> bool
    requires { Ready state.old × (n + more ≤ gathered_max) }
    ensures { (state.new ≡ pick (ltb (need n) (need (n + more))) (written state.old (cleared t (places_of state.old))) state.old) × (result ≡ (ltb (need n) (need (n + more)) && is_none (free_block (cleared t (places_of state.old))))) }
{
    if gathered::needed(n) < gathered::needed(n + more) {
        return !relief::provide(state, t);
    }
    false
}

// The frame is the one that the session of place i waits for, and its bytes are not too many. A single frame takes no block.
fn take(
    state: &mut [u8],
    i: usize,
    k: u32,
    c: Session,
    f: Incoming,
    p: &[u8],
    out: &mut [u8],
) -> Answer
    requires { Met state.old i k c f p.now out.old × Takes state.old i f p.now }
    ensures { returned result state.new out.new ≡ lent state.old out.old (step_ask (asks (session_at state.old i) (blocks_of state.old i) (parsed_of f p.now)) (places_of state.old) i (session_at state.old i) (blocks_of state.old i) (parsed_of f p.now)) }
{
    if is_single(f) {
        place::wait(state, i, k, over(c, f));
        return session::finish(p, p.len(), f, out);
    }
    if lacks_block(state, f.time, c.len, p.len()) {
        place::wait(state, i, k, over(c, f));
        return Answer::NoBlock;
    }
    enter(state, i, k, c, f, p, out)
}

// The session of place i is the one that the frame meets.
fn proceed(
    state: &mut [u8],
    i: usize,
    k: u32,
    c: Session,
    f: Incoming,
    p: &[u8],
    out: &mut [u8],
) -> Answer
    requires { Met state.old i k c f p.now out.old }
    ensures { returned result state.new out.new ≡ lent state.old out.old (step_ask (asks (session_at state.old i) (blocks_of state.old i) (parsed_of f p.now)) (places_of state.old) i (session_at state.old i) (blocks_of state.old i) (parsed_of f p.now)) }
{
    if session::awaited(c, f) {
        if GATHERED < c.len + p.len() {
            place::wait(state, i, k, over(c, f));
            return Answer::TooLong;
        }
        return take(state, i, k, c, f, p, out);
    }
    Answer::Passed(session::reason(c, f))
}

// The session c, which waits for a start, is put into place i before the frame goes on: what the place had is free by then.
fn begin(
    state: &mut [u8],
    i: usize,
    k: u32,
    c: Session,
    f: Incoming,
    p: &[u8],
    out: &mut [u8],
) -> Answer
    requires called { Called state.old f p.now out.old }
    requires idle { ((i < sessions_max) × (k ≡ key_of (stream_of f))) × ((c.expected < 32) × ((c.follows < interfaces_max) × ((c.toggle ≡ false) × (c.len ≡ 0)))) }
    ensures { returned result state.new out.new ≡ lent state.old out.old (step_at (places_of state.old) i (waiting c.expected c.time c.follows) [] (parsed_of f p.now)) }
{
    place::wait(state, i, k, c);
    proceed(state, i, k, c, f, p, out)
}

// The stream's session is in place i.
fn known(state: &mut [u8], i: usize, k: u32, f: Incoming, p: &[u8], out: &mut [u8]) -> Answer
    requires called { Called state.old f p.now out.old }
    requires held { (i < sessions_max) × ((k ≡ key_of (stream_of f)) × (key_at state.old i ≡ k)) }
    ensures { returned result state.new out.new ≡ lent state.old out.old (step_held (places_of state.old) i (place_at state.old i) (parsed_of f p.now)) }
{
    let c = place::load(state, i);
    if session::restarts(c, f) {
        let q = c.restart(session::expects(f), f.interface);
        return begin(state, i, k, q, f, p, out);
    }
    proceed(state, i, k, c, f, p, out)
}

// A start of a stream without a session: the lowest empty place, else the lowest old session's.
fn unknown(state: &mut [u8], k: u32, f: Incoming, p: &[u8], out: &mut [u8]) -> Answer
    requires called { Called state.old f p.now out.old }
    requires start { (k ≡ key_of (stream_of f)) × (f.head.start ≡ true) }
    ensures { returned result state.new out.new ≡ lent state.old out.old (step_new (place_for f.time (places_of state.old)) (places_of state.old) (parsed_of f p.now)) }
{
    let c = Session::fresh(f.head.transfer, f.time, f.interface);
    let free = sessions::scan::scan(state, Want::Key(0));
    if free < SESSIONS {
        return begin(state, free, k, c, f, p, out);
    }
    let old = sessions::scan::scan(state, Want::Old(f.time));
    if old < SESSIONS {
        return begin(state, old, k, c, f, p, out);
    }
    Answer::Full
}

// A frame with a named source.
pub fn arrive(state: &mut [u8], f: Incoming, p: &[u8], out: &mut [u8]) -> Answer
    requires { Called state.old f p.now out.old }
    ensures { returned result state.new out.new ≡ lent state.old out.old (step_seek (seek (holds (stream_of f)) (places_of state.old)) (places_of state.old) (parsed_of f p.now)) }
{
    let k = frame::key::key(f.head);
    let i = sessions::scan::scan(state, Want::Key(k));
    if i < SESSIONS {
        return known(state, i, k, f, p, out);
    }
    if f.head.start {
        return unknown(state, k, f, p, out);
    }
    Answer::Passed(Reason::NoTransfer)
}
