// The streams of a capture that is judged (RULES 19.8): a table in words that the caller lends, and one frame more.
#![tactic(auto)]

ghost use Rattle.std.specs.Prelude.{◌≡◌, false, ◌≤◌, ◌<◌, length};
ghost use Rattle.std.proofs.Math.Option.{none};
ghost use Rattle.judge_rules.specs.Limits.{streams_max};
ghost use Rattle.judge_rules.specs.Verdict.{state_of};
ghost use Rattle.judge_rules.specs.inside.Brief.{rests};
ghost use Rattle.judge_stream.specs.inside.Kept.{stream_of, seen_of, InRange};
ghost use Rattle.judge_streams.specs.inside.Table.{table_size, kept_of, kept_at, Table, entries_of, Found, Stored, Ranged, Puts, Turns, entering, Enters, expected_in};
ghost use Rattle.rules.specs.Frame.{is_anonymous};
ghost use Rattle.rules.specs.Frame as rules;

use judge_rules::limits::STREAMS;
use judge_stream::{Condition, Kept, Seen};

// The words of a table: how many streams there are; and of each the ID, the time of the start, and the rest of what is kept in one word. Zeros are a table
// with no stream.
pub const SIZE: usize = 1 + 3 * STREAMS;

const COUNT_AT: usize = 0;

const IDS_AT: usize = 1;

const STARTS_AT: usize = 1 + STREAMS;

const PROGRESS_AT: usize = 1 + 2 * STREAMS;

// All but the ID and the time, in one word.
fn progress(k: Kept) -> u64
    requires { InRange k }
    ensures { kept_of k.id k.since result ≡ k }
{
    k.transfer as u64
        + (k.toggle as u64 * 32
            + (k.count as u64 * 64 + (k.sum as u64 * 65536 + k.register as u64 * 4294967296)))
}

// What is kept at place j.
fn load(table: &[u64; SIZE], j: usize) -> Kept
    requires { (length table.now ≡ table_size) × (j < streams_max) }
    ensures { result ≡ kept_at table.now j }
{
    let id = table[IDS_AT + j];
    let w = table[PROGRESS_AT + j];
    Kept {
        id: (id % 4294967296) as u32,
        since: table[STARTS_AT + j],
        transfer: (w % 32) as u8,
        toggle: w / 32 % 2 == 1,
        count: (w / 64 % 1024) as usize,
        sum: (w / 65536 % 65536) as u16,
        register: (w / 4294967296 % 65536) as u16,
    }
}

// k at place j of n.
fn store(table: &mut [u64; SIZE], j: usize, n: usize, k: Kept)
    requires { (length table.old ≡ table_size) × ((j < streams_max) × InRange k) }
    ensures { Stored table.old j n k table.new }
{
    table[COUNT_AT] = n as u64;
    table[IDS_AT + j] = k.id as u64;
    table[STARTS_AT + j] = k.since;
    table[PROGRESS_AT + j] = progress(k);
}

// The lowest place of the ID's stream among n, or n. The lower bits of an ID are its stream, if its source is named.
fn find(table: &[u64; SIZE], n: usize, id: u32) -> usize
    requires { (length table.now ≡ table_size) × (n ≤ streams_max) }
    ensures { Found table.now n id result }
{
    let key = id as u64 % 16777216;
    for j in 0..n {
        if table[IDS_AT + j] % 16777216 == key {
            return j;
        }
    }
    n
}

// What a frame leaves at place j of n; nothing, where it fails.
fn put(
    table: &mut [u64; SIZE],
    j: usize,
    n: usize,
    s: Result<Kept, Condition>,
) -> Result<(), Condition>
    requires { (length table.old ≡ table_size) × ((j < streams_max) × Ranged s) }
    ensures { Puts table.old j n s result table.new }
{
    store(table, j, n, s?);
    Ok(())
}

// Internal. One frame more, of a stream with a named source. One that fails leaves the table as it was.
pub fn enter(table: &mut [u64; SIZE], signature: u64, v: Seen, p: &[u8]) -> Result<(), Condition>
    requires { Table table.old × Enters v p.now }
    ensures { Turns (entering signature (stream_of v) (entries_of table.old) (seen_of v p.now)) table.old result table.new }
{
    let n = table[COUNT_AT] as usize;
    let j = find(table, n, v.id);
    if j < n {
        let s = judge_stream::follow(signature, load(table, j), v, p);
        return put(table, j, n, s);
    }
    if STREAMS <= n {
        return Err(Condition(9));
    }
    let s = judge_stream::begin(signature, v, p);
    put(table, n, n + 1, s)
}

// Internal. What is kept of the stream of an ID with a named source; None, if it has no frame so far.
pub fn of_stream(table: &[u64; SIZE], id: u32) -> Option<Kept>
    requires { Table table.now }
    ensures { is_anonymous id ≡ false → expected_in result ≡ state_of (rests none) (rules.stream_of id) (entries_of table.now) }
{
    let n = table[COUNT_AT] as usize;
    let j = find(table, n, id);
    if j < n {
        return Some(load(table, j));
    }
    None
}
