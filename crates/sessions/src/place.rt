// One place of the table: loading its session, putting one there that waits for a start, and one more frame's bytes for it.
ghost use Rattle.std.specs.Prelude.{◌≡◌, [], ◌++◌, ◌+◌, ◌*◌, ◌≤◌, ◌<◌, length, set, get_or};
ghost use Rattle.blocks.specs.Stores.{store_all};
ghost use Rattle.blocks.specs.inside.Bit.{including_all};
ghost use Rattle.frame.specs.Key.{stream_of_key};
ghost use Rattle.rules.specs.Blocks.{blocks_in};
ghost use Rattle.rules.specs.Limits.{sessions_max, gathered_max, interfaces_max};
ghost use Rattle.rules.specs.Session.{waiting};
ghost use Rattle.rules.specs.Table.{empty, held};
ghost use Rattle.sessions.specs.inside.Blocks.{Appends, tail_stores};
ghost use Rattle.sessions.specs.inside.Place.{coded_at, code_stores, Waits, Grows, grown};
ghost use Rattle.state.specs.Layout.{size, free_of, key_at, time_at, count_at, places_of};
ghost use Rattle.state.specs.Place.{one, written};
ghost use Rattle.state.specs.inside.Ready.{Ready};

use super::gathered;
use session::Session;
use state::layout::{CONTROLS_AT, FREE_AT, STREAM_KEYS_AT, TIMES_AT};

// Internal. The stream key of place i.
pub fn key(state: &[u8], i: usize) -> u32
    requires { (i < sessions_max) × (size ≤ length state.now) }
    ensures { result ≡ key_at state.now i }
{
    bits::le::get_u32(state, STREAM_KEYS_AT + i * 4)
}

// Internal. The time of the last start that the session of place i took.
pub fn time(state: &[u8], i: usize) -> u64
    requires { (i < sessions_max) × (size ≤ length state.now) }
    ensures { result ≡ time_at state.now i }
{
    bits::le::get_u64(state, TIMES_AT + i * 8)
}

// Internal. How many bytes the session of place i has in hand.
pub fn count(state: &[u8], i: usize) -> usize
    requires { (i < sessions_max) × (size ≤ length state.now) }
    ensures { result ≡ count_at state.now i }
{
    bits::le::get_u16(state, CONTROLS_AT + i * 4) as usize
}

// Internal. The session of place i.
pub fn load(state: &[u8], i: usize) -> Session
    requires { (i < sessions_max) × (size ≤ length state.now) }
    ensures { result ≡ coded_at state.now i }
{
    let at = CONTROLS_AT + i * 4;
    let len = count(state, i);
    let since = time(state, i);
    let flags = state[at + 3];
    Session {
        expected: state[at + 2],
        toggle: flags % 2 == 1,
        time: since,
        follows: flags / 2,
        len: len,
    }
}

// The flags of a session: the toggle, and twice the interface that it follows.
fn flags(c: Session) -> u32
    requires { c.follows < interfaces_max }
    ensures { result ≡ one c.toggle + 2 * c.follows }
{
    let follows = c.follows as u32;
    if c.toggle {
        return 1 + 2 * follows;
    }
    2 * follows
}

// The control fields and the time of place i. The four control bytes are one word.
fn write(state: &mut [u8], i: usize, c: Session)
    requires { ((i < sessions_max) × (size ≤ length state.old)) × ((c.len ≤ gathered_max) × ((c.expected < 32) × (c.follows < interfaces_max))) }
    ensures { state.new ≡ store_all state.old (code_stores i c) }
{
    let word = c.len as u32 + 65536 * (c.expected as u32 + 256 * flags(c));
    bits::le::put_u32(state, CONTROLS_AT + i * 4, word);
    bits::le::put_u64(state, TIMES_AT + i * 8, c.time);
}

// The free blocks once place i has given back its own.
fn free_after(state: &[u8], i: usize) -> u64
    requires { Ready state.now × (i < sessions_max) }
    ensures { result ≡ including_all (free_of state.now) (blocks_in (get_or (places_of state.now) i empty)) }
{
    if key(state, i) == 0 {
        return gathered::free_with(state, i, 0);
    }
    let len = count(state, i);
    gathered::free_with(state, i, gathered::needed(len))
}

// Internal. The session c of the stream with the key k, which waits for a start, is put into place i. What blocks the place had are free.
pub fn wait(state: &mut [u8], i: usize, k: u32, c: Session)
    requires { Waits state.old i k c }
    ensures { state.new ≡ written state.old (set (places_of state.old) i (held (stream_of_key k) (waiting c.expected c.time c.follows) [])) }
{
    let free = free_after(state, i);
    bits::le::put_u64(state, FREE_AT, free);
    bits::le::put_u32(state, STREAM_KEYS_AT + i * 4, k);
    write(state, i, c);
}

// The session c in place i, whose first n bytes are there, and the bytes p after them.
fn fill(state: &mut [u8], i: usize, c: Session, n: usize, p: &[u8])
    requires { Appends state.old i n p.now × ((c.len ≤ gathered_max) × ((c.expected < 32) × (c.follows < interfaces_max))) }
    ensures { state.new ≡ store_all state.old (code_stores i c ++ tail_stores state.old i n p.now) }
{
    write(state, i, c);
    gathered::append(state, i, n, p);
}

// Internal. The session of place i becomes c, with the bytes p more in hand: in the blocks that it has, or with the lowest free one besides.
pub fn grow(state: &mut [u8], i: usize, c: Session, p: &[u8])
    requires { Grows state.old i c p.now }
    ensures { state.new ≡ written state.old (set (places_of state.old) i (grown state.old i c p.now)) }
{
    let n = c.len - p.len();
    let held = gathered::needed(n);
    if held < gathered::needed(c.len) {
        gathered::claim(state, i, held);
        fill(state, i, c, n, p);
        return;
    }
    fill(state, i, c, n, p);
}
