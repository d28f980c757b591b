// The allocator of node IDs, where there is only one on the bus (RULES 16): setting one up, and one call for each Allocation message received.
#![tactic(auto)]

pub mod answer;
pub mod laws;
mod serve;
mod stage;

ghost use Rattle.std.specs.Prelude.{◌≡◌};
ghost use Rattle.allocator.specs.Allocate.{returned, allocated};
ghost use Rattle.allocator.specs.Setup.{set_up, after_setup};
ghost use Rattle.allocator_table.specs.Layout as layout;

use allocator_table::free::Reserved;
use allocator_table::layout::SIZE;
use allocator_table::sound;
use answer::AllocateError;
use answers::SetupError;
use protocol_dynamic_node_id::allocation;

// What is asked, but for the message: the own node ID with the marks of static nodes, the source of the message, and its time.
#[derive(Drop)]
pub struct Request {
    pub reserved: Reserved,
    pub source: u32,
    pub time: u64,
}

// The bytes that an allocator takes.
pub fn size() -> usize
    ensures { result ≡ layout.size }
{
    SIZE
}

// Makes the lent bytes an allocator with an empty table.
pub fn setup(state: &mut [u8]) -> Result<(), SetupError>
    ensures { set_up result state.new ≡ after_setup state.old }
{
    if state.len() < SIZE {
        return Err(SetupError::Short);
    }
    let zeros = [0u8; SIZE];
    bits::part::copy_at(state, 0, &zeros);
    Ok(())
}

// One Allocation message: its payload, and the reply's to the front of `out`; its length, or None for no reply.
pub fn allocate(
    state: &mut [u8],
    q: Request,
    payload: &[u8],
    out: &mut [u8],
) -> Result<Option<usize>, AllocateError>
    ensures { returned result state.new out.new ≡ allocated state.old q payload.now out.old }
{
    if !sound::is_sound(state) {
        return Err(AllocateError::Faulty);
    }
    let reserved = q.reserved;
    if reserved.own == 0 {
        return Err(AllocateError::OwnId);
    }
    if 127 < reserved.own {
        return Err(AllocateError::OwnId);
    }
    // A match: the C library translates no `?` that converts.
    match allocation::decode(payload) {
        Err(r) => Err(AllocateError::Message(r)),
        Ok(a) => serve::message(
            state,
            q,
            a.node_id as u64,
            a.first_part_of_unique_id as u64,
            allocation::unique_id(payload),
            out,
        ),
    }
}
