// What 14 refuses (RULES 7.2).
ghost use Rattle.std.specs.Prelude.{◌≡◌, ◌&&◌, ◌||◌, ltb, eqb};
ghost use Rattle.rules.specs.Sending.{bad_type, bad_destination, bad_anonymous, not_sendable};
ghost use Rattle.sender.specs.Send.{call_of};

use super::Outgoing;

// The type ID or the destination does not go with the transfer type.
fn bad_address(transfer_type: u32, type_id: u32, destination: u32) -> bool
    ensures { result ≡ (bad_type transfer_type type_id || bad_destination transfer_type destination) }
{
    if transfer_type == 0 {
        if 65535 < type_id {
            return true;
        }
        return 0 < destination;
    }
    if 255 < type_id {
        return true;
    }
    if destination == 0 {
        return true;
    }
    127 < destination
}

fn bad_anonymous(discriminator: u32, type_id: u32, n: usize, transfer_type: u32) -> bool
    ensures { result ≡ bad_anonymous discriminator type_id n transfer_type }
{
    if 16383 < discriminator {
        return true;
    }
    if 3 < type_id {
        return true;
    }
    if 7 < n {
        return true;
    }
    transfer_type != 0
}

// A response's transfer ID is out of range.
fn bad_transfer_id(transfer_type: u32, transfer_id: u32) -> bool
    ensures { result ≡ (eqb transfer_type 2 && ltb 31 transfer_id) }
{
    if transfer_type == 2 {
        return 31 < transfer_id;
    }
    false
}

pub fn not_sendable(c: Outgoing, payload: &[u8]) -> bool
    ensures { result ≡ not_sendable (call_of c payload.now) }
{
    if 127 < c.own {
        return true;
    }
    if 2 < c.transfer_type {
        return true;
    }
    if bad_address(c.transfer_type, c.type_id, c.destination) {
        return true;
    }
    if 31 < c.priority {
        return true;
    }
    if bad_transfer_id(c.transfer_type, c.transfer_id) {
        return true;
    }
    if c.own == 0 {
        return bad_anonymous(c.discriminator, c.type_id, payload.len(), c.transfer_type);
    }
    false
}
