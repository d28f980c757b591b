// What the log program's receiver subscribes to (RULES 12.1).
#![tactic(auto)]

ghost use Rattle.std.specs.Prelude.{◌≡◌, ◌+◌, ◌*◌, ◌≤◌, length};
ghost use Rattle.bits.specs.Part.{splice};
ghost use Rattle.log_subscriptions.specs.Subscriptions.{record13, subscriptions as subscriptions_of};

const COUNT: usize = 9;

// Kind (0 message, 1 service) and data type ID of each.
const TYPES: [(u32, u32); COUNT] = [
    (0, 341), // NodeStatus
    (1, 1), // GetNodeInfo
    (0, 1), // Allocation
    (0, 16370), // KeyValue
    (0, 16383), // LogMessage
    (0, 1092), // BatteryInfo
    (0, 1030), // RawCommand
    (1, 11), // GetSet
    (1, 10), // ExecuteOpcode
];

// A type as a record for a receiver's setup (RULES 3.3): kind (1), type ID (4), signature (8), low byte first.
fn put(out: &mut [u8], j: usize, kind: u32, type_id: u32)
    requires { j * 13 + 13 ≤ length out.old }
    ensures { out.new ≡ splice out.old (j * 13) (record13 kind type_id) }
{
    bits::le::put_at(out, j * 13, 1, kind as u64);
    bits::le::put_at(out, j * 13 + 1, 4, type_id as u64);
    bits::le::put_at(out, j * 13 + 5, 8, types::signature(kind, type_id));
}

// Internal. The records of all of them.
pub fn subscriptions() -> [u8; 117]
    ensures { result ≡ subscriptions_of }
{
    let mut out = [0u8; 117];
    for (j, (kind, type_id)) in TYPES.iter().enumerate() {
        put(&mut out, j, *kind, *type_id);
    }
    out
}
