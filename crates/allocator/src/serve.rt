// A message to an allocator without a fault (RULES 16.4 to 16.9). The reply is written first: if there is no room for it, nothing changes.
ghost use Rattle.std.specs.Prelude.{true, ◌++◌, ◌≡◌, ◌+◌, ◌≤◌, ◌<◌, length, take};
ghost use Rattle.bits.specs.Part.{span};
ghost use Rattle.allocator.specs.Allocate.{returned, gathers, knows, gives, performs, completes, decide};
ghost use Rattle.allocator.specs.inside.Replied.{replied};
ghost use Rattle.allocator.specs.Stage.{joined};
ghost use Rattle.allocator_table.specs.Layout.{size, gathered_at, entry_count, sound_state};
ghost use Rattle.allocator_table.specs.Limits.{unique_id_max, node_max};

use super::answer::AllocateError;
use super::{Request, stage};
use allocator_table::layout::GATHERED_AT;
use allocator_table::limits::UNIQUE_ID;
use allocator_table::{entry, find, free, store};
use protocol_dynamic_node_id::allocation;
use shape::answer::Refusal;

// What was written, as the call's answer. No `From<Refusal>`: the C library translates no `?` that converts.
fn replied(written: Result<usize, Refusal>) -> Result<Option<usize>, AllocateError>
    ensures { result ≡ replied written }
{
    match written {
        Ok(n) => Ok(Some(n)),
        Err(r) => Err(AllocateError::Message(r)),
    }
}

// The reply to a part of a unique ID, g so far.
fn follow_up(state: &mut [u8], t: u64, g: &[u8], out: &mut [u8]) -> Result<usize, Refusal>
    requires { (size ≤ length state.old) × (length g.now ≤ unique_id_max) }
    ensures { returned (replied result) state.new out.new ≡ performs gathers state.old t g.now out.old }
{
    let n = allocation::encode(0, 0, g, out)?;
    store::gathered(state, g);
    store::time(state, t);
    Ok(n)
}

// The reply to a unique ID in the table.
fn confirm(
    state: &mut [u8],
    t: u64,
    g: &[u8],
    node: usize,
    out: &mut [u8],
) -> Result<usize, Refusal>
    requires { (size ≤ length state.old) × (node ≤ node_max) }
    ensures { returned (replied result) state.new out.new ≡ performs (knows node) state.old t g.now out.old }
{
    let n = allocation::encode(node as i64, 0, g, out)?;
    store::gathered_count(state, 0);
    store::time(state, t);
    Ok(n)
}

// The reply to a new unique ID, and its entry.
fn enter(state: &mut [u8], t: u64, g: &[u8], node: usize, out: &mut [u8]) -> Result<usize, Refusal>
    requires { (sound_state state.old ≡ true) × ((entry_count state.old < node_max) × ((length g.now ≡ unique_id_max) × (node ≤ node_max))) }
    ensures { returned (replied result) state.new out.new ≡ performs (gives node) state.old t g.now out.old }
{
    let n = allocation::encode(node as i64, 0, g, out)?;
    store::entry(state, g, node);
    store::gathered_count(state, 0);
    store::time(state, t);
    Ok(n)
}

// A whole unique ID, 16 bytes, and the node ID that it prefers.
fn complete(
    state: &mut [u8],
    q: Request,
    g: &[u8],
    p: u64,
    out: &mut [u8],
) -> Result<Option<usize>, AllocateError>
    requires { (sound_state state.old ≡ true) × (length g.now ≡ unique_id_max) }
    ensures { returned result state.new out.new ≡ performs (completes state.old q g.now p) state.old q.time g.now out.old }
{
    if let Some(node) = find::node_of(state, entry::read(g, 0)) {
        return replied(confirm(state, q.time, g, node, out));
    }
    match free::given(state, q.reserved, stage::preferred(p)) {
        Some(node) => replied(enter(state, q.time, g, node, out)),
        None => {
            store::gathered_count(state, 0);
            Err(AllocateError::Exhausted)
        }
    }
}

// The n bytes that are gathered, and those of the message.
fn join(state: &[u8], n: usize, u: &[u8]) -> [u8; UNIQUE_ID]
    requires { (size ≤ length state.now) × (n + length u.now ≤ unique_id_max) }
    ensures { (take (n + length u.now) result ≡ span state.now gathered_at n ++ u.now) × (length result ≡ unique_id_max) }
{
    let mut g = [0u8; UNIQUE_ID];
    bits::part::copy_span(&mut g, 0, state, GATHERED_AT, n);
    bits::part::copy_at(&mut g, n, u);
    g
}

// A message: the node ID that is preferred, the first part, and the unique ID.
pub fn message(
    state: &mut [u8],
    q: Request,
    p: u64,
    first: u64,
    u: &[u8],
    out: &mut [u8],
) -> Result<Option<usize>, AllocateError>
    requires { sound_state state.old ≡ true }
    ensures { returned result state.new out.new ≡ performs (decide state.old q (p, (first, u.now))) state.old q.time (joined state.old q.time u.now) out.old }
{
    if q.source != 0 {
        return Ok(None);
    }
    let n = stage::kept(state, q.time);
    if !stage::accepts(first, u.len(), n) {
        store::gathered_count(state, n);
        return Ok(None);
    }
    let g = join(state, n, u);
    let len = n + u.len();
    if len < UNIQUE_ID {
        return replied(follow_up(state, q.time, &g[0..len], out));
    }
    complete(state, q, &g, p, out)
}
