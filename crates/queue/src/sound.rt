// The faults of a lent queue (RULES 20.5), which answer 20. Every call runs this first, so it is one walk over the records.
ghost use Rattle.std.specs.Prelude.{◌≡◌, ◌+◌, ◌*◌, ◌≤◌, ◌<◌, length};
ghost use Rattle.rules.specs.Limits.{frame_record};
ghost use Rattle.queue.specs.Queue.{in_order};
ghost use Rattle.queue.specs.Layout.{records_at, queued, sound_queue};

use super::layout::{COUNT_AT, RECORDS_AT};
use super::record;
use rules::limits::FRAME_RECORD;

// The first n records have no fault, and no ID is above the one before it.
fn records_sound(queue: &[u8], n: usize) -> bool
    requires { records_at + n * frame_record ≤ length queue.now }
    ensures { result ≡ in_order (queued queue.now n) }
{
    let mut last: u32 = 0xffffffff;
    for i in 0..n {
        let at = RECORDS_AT + i * FRAME_RECORD;
        if record::fault(queue, at).is_err() {
            return false;
        }
        let id = record::id(queue, at);
        if last < id {
            return false;
        }
        last = id;
    }
    true
}

// The queue has no fault.
pub fn is_sound(queue: &[u8]) -> bool
    ensures { result ≡ sound_queue queue.now }
{
    if queue.len() < RECORDS_AT {
        return false;
    }
    let n = bits::le::get_u64(queue, COUNT_AT);
    let places = (queue.len() - RECORDS_AT) / FRAME_RECORD;
    if (places as u64) < n {
        return false;
    }
    records_sound(queue, n as usize)
}
