// Records as they are put (RULES 20.3): what of one is looked at, and what refuses it.
ghost use Rattle.std.specs.Prelude.{◌≡◌, ◌+◌, ◌*◌, ◌≤◌, ◌<◌, length};
ghost use Rattle.bits.specs.Part.{span};
ghost use Rattle.rules.specs.Limits.{frame_record};
ghost use Rattle.queue.specs.inside.Checked.{checked};
ghost use Rattle.queue.specs.Queue.{id_of, fault_of, first_fault};
ghost use Rattle.queue.specs.Layout.{given, records_of};
ghost use Rattle.queue.specs.inside.Run.{Run};

use super::answer::QueueError;
use frame::record;
use rules::limits::{FRAME_DATA, FRAME_RECORD};

// The ID of the record from `at` on.
pub fn id(s: &[u8], at: usize) -> u32
    requires { at + frame_record ≤ length s.now }
    ensures { result ≡ id_of (span s.now at frame_record) }
{
    bits::le::get_u32(s, at)
}

// What refuses the record from `at` on.
pub fn fault(s: &[u8], at: usize) -> Result<(), QueueError>
    requires { at + frame_record ≤ length s.now }
    ensures { result ≡ checked (fault_of (span s.now at frame_record)) }
{
    let found = record::get(s, at);
    if 0x20000000 <= found.id {
        return Err(QueueError::LargeId);
    }
    if found.len == 0 {
        return Err(QueueError::BadLength);
    }
    if FRAME_DATA < found.len {
        return Err(QueueError::BadLength);
    }
    Ok(())
}

// What refuses the first of the records that is refused.
pub fn first_fault(records: &[u8]) -> Result<(), QueueError>
    ensures { result ≡ checked (first_fault (records_of records.now)) }
{
    let k = records.len() / FRAME_RECORD;
    for i in 0..k {
        fault(records, i * FRAME_RECORD)?;
    }
    Ok(())
}

// Where the records after record i that have its ID end: those of one transfer, as `send` writes them.
pub fn run_end(records: &[u8], i: usize, k: usize) -> usize
    requires { (i < k) × (k * frame_record ≤ length records.now) }
    ensures { Run (given records.now) i result k }
{
    let own = id(records, i * FRAME_RECORD);
    for e in i + 1..k {
        if id(records, e * FRAME_RECORD) != own {
            return e;
        }
    }
    k
}
