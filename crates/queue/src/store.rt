// Records into a lent queue (RULES 20.2). Those of one ID that follow each other go in together: what lies in the way moves once.
ghost use Rattle.std.specs.Prelude.{◌≡◌, ◌+◌, ◌*◌, ◌-◌, ◌/◌, ◌≤◌, ◌<◌, length};
ghost use Rattle.bits.specs.Part.{splice};
ghost use Rattle.bits.specs.Tabulate.{tabulate};
ghost use Rattle.rules.specs.Limits.{frame_record};
ghost use Rattle.queue.specs.Queue.{put_all};
ghost use Rattle.queue.specs.Layout.{records_at, count_of, queued, stored, given, records_of};
ghost use Rattle.queue.specs.inside.Run.{Run, behind};

use super::layout::{COUNT_AT, RECORDS_AT};
use super::record;
use rules::limits::FRAME_RECORD;

// The number of records.
pub fn count(queue: &[u8]) -> usize
    requires { records_at ≤ length queue.now }
    ensures { result ≡ count_of queue.now }
{
    bits::le::get_u64(queue, COUNT_AT) as usize
}

// How many of the first n records go after those of the ID: they stay where they are.
fn place(queue: &[u8], n: usize, id: u32) -> usize
    requires { records_at + n * frame_record ≤ length queue.now }
    ensures { (result ≤ n) × (queued queue.now result ≡ behind id (queued queue.now n)) }
{
    for p in (0..n).rev() {
        if id < record::id(queue, RECORDS_AT + p * FRAME_RECORD) {
            return p + 1;
        }
    }
    0
}

// The records i to e to the places from p on, the last one first.
fn copy(queue: &mut [u8], p: usize, records: &[u8], i: usize, e: usize)
    requires { (i ≤ e) × ((records_at + (p + (e - i)) * frame_record ≤ length queue.old) × (e * frame_record ≤ length records.now)) }
    ensures { queue.new ≡ splice queue.old (records_at + p * frame_record) (stored (tabulate (given records.now) i (e - i))) }
{
    let mut at = RECORDS_AT + p * FRAME_RECORD;
    for j in (i..e).rev() {
        bits::part::copy_span(queue, at, records, j * FRAME_RECORD, FRAME_RECORD);
        at += FRAME_RECORD;
    }
}

// The records i to e, all of one ID, into a queue of n.
fn run(queue: &mut [u8], n: usize, records: &[u8], i: usize, e: usize)
    requires frame_record_in_bounds { (records_at + (n + (e - i)) * frame_record ≤ length queue.old) × (e * frame_record ≤ length records.now) }
    requires run { Run (given records.now) i e e }
    ensures { queue.new ≡ splice queue.old records_at (stored (put_all (queued queue.old n) (tabulate (given records.now) i (e - i)))) }
{
    let p = place(queue, n, record::id(records, i * FRAME_RECORD));
    moves::up(
        queue,
        RECORDS_AT + p * FRAME_RECORD,
        (n - p) * FRAME_RECORD,
        (e - i) * FRAME_RECORD,
    );
    copy(queue, p, records, i, e);
}

// All records into a queue of n, which has room for them.
pub fn all(queue: &mut [u8], n: usize, records: &[u8])
    requires { records_at + (n + length records.now / frame_record) * frame_record ≤ length queue.old }
    ensures { queue.new ≡ splice queue.old records_at (stored (put_all (queued queue.old n) (records_of records.now))) }
{
    let k = records.len() / FRAME_RECORD;
    let mut i = 0;
    // A while: i goes on to where the records of one ID end.
    while i < k {
        let e = record::run_end(records, i, k);
        run(queue, n + i, records, i, e);
        i = e;
    }
}
