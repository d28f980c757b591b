// What an allocatee sends (RULES 21.4). It is written first: if there is no room for it, nothing changes.
ghost use Rattle.std.specs.Prelude.{◌⊎◌, ◌≡◌, ◌+◌, ◌≤◌, ◌<◌, length};
ghost use Rattle.allocatee.specs.Calls.{returned, follows_up, requests};
ghost use Rattle.allocatee.specs.Layout.{size, pending_of, preferred_of};
ghost use Rattle.allocatee.specs.Limits.{unique_id_max, stage_max};

use super::answer::{AllocateeError, Sending, Step};
use super::layout::UNIQUE_AT;
use super::limits::{REQUEST, STAGE, UNIQUE_ID};
use super::{store, view};
use protocol_dynamic_node_id::allocation;

// A part of the unique ID ends here: six bytes after where it starts, or with the ID.
fn part_end(at: usize) -> usize
    requires { at < unique_id_max }
    ensures { ((result ≡ unique_id_max) × (unique_id_max < at + stage_max)) ⊎ ((result ≡ at + stage_max) × (result ≤ unique_id_max)) }
{
    if UNIQUE_ID - at < STAGE {
        return UNIQUE_ID;
    }
    at + STAGE
}

// The follow-up that is pending.
pub fn follow_up(bytes: &mut [u8], t: u64, out: &mut [u8]) -> Result<Step, AllocateeError>
    requires { (size ≤ length bytes.old) × ((0 < pending_of bytes.old) × (pending_of bytes.old ≤ unique_id_max)) }
    ensures { returned result bytes.new out.new ≡ follows_up bytes.old t out.old }
{
    if out.len() < REQUEST {
        return Err(AllocateeError::OutputSmall);
    }
    let at = view::pending(bytes) - 1;
    let end = part_end(at);
    let len = allocation::encode(view::preferred(bytes) as i64, 0, &bytes[at..end], out)?;
    store::pending(bytes, 0);
    let wait = view::wait(bytes, t);
    Ok(Step::Sends(Sending { len, wait }))
}

// The first-stage request.
pub fn request(bytes: &mut [u8], t: u64, x: u64, out: &mut [u8]) -> Result<Step, AllocateeError>
    requires { size ≤ length bytes.old }
    ensures { returned result bytes.new out.new ≡ requests bytes.old t x out.old }
{
    if out.len() < REQUEST {
        return Err(AllocateeError::OutputSmall);
    }
    let len = allocation::encode(
        view::preferred(bytes) as i64,
        1,
        &bytes[UNIQUE_AT..UNIQUE_AT + STAGE],
        out,
    )?;
    store::timer(bytes, t, x);
    let wait = view::wait(bytes, t);
    Ok(Step::Sends(Sending { len, wait }))
}
