// A queue of frames that wait to be sent, in lent bytes (RULES 20): setting one up, putting records in, looking at the one that goes next, taking it away.
#![tactic(auto)]

pub mod answer;
pub mod laws;
pub mod layout;
mod record;
mod sound;
mod store;

ghost use Rattle.std.specs.Prelude.{◌≡◌, length};
ghost use Rattle.queue.specs.Calls.{set_up, after_setup, returned, after_put, after_take, shown, looked};
ghost use Rattle.queue.specs.Layout as specs;

use answer::QueueError;
use answers::SetupError;
use layout::{COUNT_AT, RECORDS_AT};
use rules::limits::FRAME_RECORD;

// The records that a queue in so many bytes has places for.
pub fn capacity(n: usize) -> usize
    ensures { result ≡ specs.capacity n }
{
    if n < RECORDS_AT {
        return 0;
    }
    (n - RECORDS_AT) / FRAME_RECORD
}

// Makes the lent bytes a queue with no record.
pub fn setup(queue: &mut [u8]) -> Result<(), SetupError>
    ensures { set_up result queue.new ≡ after_setup queue.old }
{
    if queue.len() < RECORDS_AT {
        return Err(SetupError::Short);
    }
    bits::le::put_u64(queue, COUNT_AT, 0);
    Ok(())
}

// Puts records into the queue, all of them or none.
pub fn put(queue: &mut [u8], records: &[u8]) -> Result<(), QueueError>
    ensures { returned result queue.new ≡ after_put queue.old records.now }
{
    if !sound::is_sound(queue) {
        return Err(QueueError::Faulty);
    }
    if records.len() % FRAME_RECORD != 0 {
        return Err(QueueError::PartRecord);
    }
    record::first_fault(records)?;
    let n = store::count(queue);
    if capacity(queue.len()) - n < records.len() / FRAME_RECORD {
        return Err(QueueError::Full);
    }
    store::all(queue, n, records);
    bits::le::put_u64(queue, COUNT_AT, (n + records.len() / FRAME_RECORD) as u64);
    Ok(())
}

// The record that goes next, to the front of `out`; false if there is none.
pub fn look(queue: &[u8], out: &mut [u8]) -> Result<bool, QueueError>
    ensures { shown result out.new ≡ looked queue.now out.old }
{
    if !sound::is_sound(queue) {
        return Err(QueueError::Faulty);
    }
    let n = store::count(queue);
    if n == 0 {
        return Ok(false);
    }
    if out.len() < FRAME_RECORD {
        return Err(QueueError::OutputSmall);
    }
    bits::part::copy_span(
        out,
        0,
        queue,
        RECORDS_AT + (n - 1) * FRAME_RECORD,
        FRAME_RECORD,
    );
    Ok(true)
}

// Takes the record that goes next away; false if there is none.
pub fn take(queue: &mut [u8]) -> Result<bool, QueueError>
    ensures { returned result queue.new ≡ after_take queue.old }
{
    if !sound::is_sound(queue) {
        return Err(QueueError::Faulty);
    }
    let n = store::count(queue);
    if n == 0 {
        return Ok(false);
    }
    bits::le::put_u64(queue, COUNT_AT, (n - 1) as u64);
    Ok(true)
}
