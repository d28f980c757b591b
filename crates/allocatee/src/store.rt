// Writing to a lent state (RULES 21.5).
ghost use Rattle.std.specs.Prelude.{◌≡◌, ◌≤◌, ◌<◌, length};
ghost use Rattle.allocatee.specs.Layout.{size, with_node, with_pending, with_timer};
ghost use Rattle.allocatee.specs.Layout as specs;
ghost use Rattle.allocatee.specs.Limits.{unique_id_max};

use super::layout::{DELAY_AT, NODE_AT, PENDING_AT, PERIOD_AT, PREFERRED_AT, SINCE_AT, UNIQUE_AT};

// The node ID that is taken.
pub fn node(bytes: &mut [u8], n: u8)
    requires { size ≤ length bytes.old }
    ensures { bytes.new ≡ with_node bytes.old n }
{
    bytes[NODE_AT] = n;
}

// The follow-up that is pending.
pub fn pending(bytes: &mut [u8], n: u8)
    requires { size ≤ length bytes.old }
    ensures { bytes.new ≡ with_pending bytes.old n }
{
    bytes[PENDING_AT] = n;
}

// Starts the request timer.
pub fn timer(bytes: &mut [u8], t: u64, x: u64)
    requires { size ≤ length bytes.old }
    ensures { bytes.new ≡ with_timer bytes.old t x }
{
    bits::le::put_u64(bytes, SINCE_AT, t);
    bits::le::put_u32(bytes, PERIOD_AT, (x % 4294967296) as u32);
    bits::le::put_u32(bytes, DELAY_AT, (x / 4294967296) as u32);
}

// An allocatee that has no ID.
pub fn fresh(bytes: &mut [u8], unique_id: &[u8], preferred: u32, t: u64, x: u64)
    requires { (size ≤ length bytes.old) × ((length unique_id.now ≡ unique_id_max) × (preferred < 128)) }
    ensures { bytes.new ≡ specs.fresh bytes.old unique_id.now preferred t x }
{
    bits::part::copy_at(bytes, UNIQUE_AT, unique_id);
    bytes[PREFERRED_AT] = preferred as u8;
    node(bytes, 0);
    pending(bytes, 0);
    timer(bytes, t, x);
}
