// The records: for each definition the length of its form, and its signature (RULES 17.12).
ghost use Rattle.std.specs.Prelude.{◌≡◌, ℕ, ◌+◌, ◌*◌, ◌≤◌, ◌<◌, length, get_or};
ghost use Rattle.bits.specs.Part.{splice};
ghost use Rattle.dsdl_given.specs.Given.{definition_max};
ghost use Rattle.dsdl_signature.specs.Call.{record_of, record_size};
ghost use Rattle.dsdl_signature.specs.inside.Written.{joined, record_at};

use super::forms::ENDS;
use bits::le;

pub const RECORD: usize = 12;

// A record, from `at` on.
fn put(records: &mut [u8], at: usize, len: usize, signature: u64)
    requires { at + record_size ≤ length records.old }
    ensures { records.new ≡ splice records.old at (record_of len signature) }
{
    le::put_at(records, at, 4, len as u64);
    le::put_at(records, at + 4, 8, signature);
}

// Internal. The first n records, from where the forms end and from the signatures.
pub fn write(ends: [usize; ENDS], signatures: [u64; ENDS], n: usize, records: &mut [u8])
    requires { (n ≤ definition_max) × ((n * record_size ≤ length records.old) × ((i : ℕ) → i < n → get_or ends i 0 ≤ get_or ends (i + 1) 0)) }
    ensures { records.new ≡ splice records.old 0 (joined (record_at ends signatures) 0 n) }
{
    for i in 0..n {
        put(records, i * RECORD, ends[i + 1] - ends[i], signatures[i]);
    }
}
