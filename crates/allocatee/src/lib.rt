// The allocatee: a node without an ID that asks an allocator for one (RULES 21). Setting one up, a call on time, and a call for each Allocation message received.
#![tactic(auto)]

pub mod answer;
mod hears;
pub mod laws;
pub mod layout;
pub mod limits;
mod sends;
mod sound;
mod store;
mod view;

ghost use Rattle.std.specs.Prelude.{◌≡◌};
ghost use Rattle.allocatee.specs.Calls.{state, after_setup, returned, polled, heard};
ghost use Rattle.allocatee.specs.Layout as specs;

use answer::{AllocateeError, Step};
use layout::SIZE;
use limits::{NODE, UNIQUE_ID};
use protocol_dynamic_node_id::allocation;

// What an allocatee is set up with, but for its unique ID.
#[derive(Drop)]
pub struct Start {
    pub preferred: u32,
    pub time: u64,
    pub random: u64,
}

// What comes with a message: its source, the time, and a random number.
#[derive(Drop)]
pub struct Heard {
    pub source: u32,
    pub time: u64,
    pub random: u64,
}

// The bytes that an allocatee takes.
pub fn size() -> usize
    ensures { result ≡ specs.size }
{
    SIZE
}

// Makes the lent bytes an allocatee that has no ID, and starts its timer.
pub fn setup(bytes: &mut [u8], unique_id: &[u8], q: Start) -> Result<Step, AllocateeError>
    ensures { state result bytes.new ≡ after_setup bytes.old unique_id.now q }
{
    if unique_id.len() != UNIQUE_ID {
        return Err(AllocateeError::UniqueId);
    }
    if bytes.len() < SIZE {
        return Err(AllocateeError::Faulty);
    }
    if NODE < q.preferred {
        return Err(AllocateeError::NodeId);
    }
    store::fresh(bytes, unique_id, q.preferred, q.time, q.random);
    Ok(Step::Waits(view::wait(bytes, q.time)))
}

// A call on time: what is to be sent goes to the front of `out`.
pub fn poll(
    bytes: &mut [u8],
    time: u64,
    random: u64,
    out: &mut [u8],
) -> Result<Step, AllocateeError>
    ensures { returned result bytes.new out.new ≡ polled bytes.old time random out.old }
{
    if !sound::is_sound(bytes) {
        return Err(AllocateeError::Faulty);
    }
    let node = view::node(bytes);
    if node != 0 {
        return Ok(Step::Has(node));
    }
    if view::follow_up_due(bytes, time) {
        return sends::follow_up(bytes, time, out);
    }
    if view::request_due(bytes, time) {
        return sends::request(bytes, time, random, out);
    }
    Ok(Step::Waits(view::wait(bytes, time)))
}

// One Allocation message that came: its payload.
pub fn hear(bytes: &mut [u8], q: Heard, payload: &[u8]) -> Result<Step, AllocateeError>
    ensures { state result bytes.new ≡ heard bytes.old q payload.now }
{
    if !sound::is_sound(bytes) {
        return Err(AllocateeError::Faulty);
    }
    let node = view::node(bytes);
    if node != 0 {
        return Ok(Step::Has(node));
    }
    let a = allocation::decode(payload)?;
    Ok(hears::message(bytes, q, a.node_id as u64, allocation::unique_id(payload)))
}
