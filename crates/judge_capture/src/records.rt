// Records to the streams of their frames (RULES 19.2, 19.3).
ghost use Rattle.std.specs.Prelude.{◌≤◌, ◌≡◌, length};
ghost use Rattle.capture_record.specs.Record.{record_size};
ghost use Rattle.judge_capture.specs.Record.{frame_told};
ghost use Rattle.judge_capture.specs.inside.Feed.{admitting, Admits, Feeds};
ghost use Rattle.judge_rules.specs.Verdict.{on, advance};
ghost use Rattle.judge_rules.specs.inside.Brief.{summing};
ghost use Rattle.judge_stream.specs.inside.Kept.{stream_of, seen_of};
ghost use Rattle.judge_streams.specs.inside.Table.{Table, entries_of, Turns};
ghost use Rattle.state.specs.Layout.{size, setup_of};

use judge_stream::{Condition, Seen};
use judge_streams::SIZE;

// The condition that a record of a block fails, and which one it is, counted from 0.
#[derive(Clone, Copy, Debug, PartialEq, Eq)]
pub struct Failure {
    pub condition: Condition,
    pub index: usize,
}

// A frame that passed the checks 2 to 5. Its type must be subscribed to; of an anonymous one no more is asked.
fn admit(state: &[u8], table: &mut [u64; SIZE], v: Seen, p: &[u8]) -> Result<(), Condition>
    requires { (size ≤ length state.now) × (Table table.old × Admits v p.now) }
    ensures { Turns (admitting (setup_of state.now) (stream_of v) (entries_of table.old) (seen_of v p.now)) table.old result table.new }
{
    let Some(signature) = subscriptions::find(
        state,
        frame::check::kind(v.head),
        v.head.type_id as u32,
    ) else {
        return Err(Condition(7));
    };
    if frame::check::is_anonymous(v.head) {
        return Ok(());
    }
    judge_streams::enter(table, signature, v, p)
}

// One record, of 21 bytes. Its data are read where they stand.
fn turn(state: &[u8], table: &mut [u64; SIZE], r: &[u8]) -> Result<(), Condition>
    requires { (size ≤ length state.now) × (Table table.old × (length r.now ≡ record_size)) }
    ensures { Turns (λ i. advance summing (setup_of state.now) (on i (entries_of table.old)) (frame_told r.now)) table.old result table.new }
{
    let f = frame::record::get(r, 8);
    let n = f.len;
    let unreadable = frame::check::unreadable(f.id, n, 0);
    if 0 < unreadable {
        return Err(Condition(unreadable));
    }
    let h = frame::head::read(f.id, r[12 + n]);
    let refused = frame::check::refusal(h, n, h.destination);
    if 0 < refused {
        return Err(Condition(refused));
    }
    let v = Seen {
        id: f.id,
        time: bits::le::get_at(r, 0, 8),
        head: h,
    };
    admit(state, table, v, &r[13..12 + n])
}

// Internal. Whole records, one after the other, on a receiver's state, of which the subscriptions are read, and the table that the records before them
// left. A record that fails leaves the table as it was, so that `judge_streams::of_stream` tells what was expected.
pub fn feed(state: &[u8], table: &mut [u64; SIZE], records: &[u8]) -> Result<(), Failure>
    requires { (size ≤ length state.now) × Table table.old }
    ensures { Feeds (setup_of state.now) table.old records.now result table.new }
{
    let n = records.len() / capture_record::SIZE;
    for i in 0..n {
        let at = i * capture_record::SIZE;
        if let Err(condition) = turn(state, table, &records[at..at + capture_record::SIZE]) {
            return Err(Failure {
                condition,
                index: i,
            });
        }
    }
    Ok(())
}
