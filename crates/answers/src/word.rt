// The result word of a reception (RULES 13.3).
ghost use Rattle.std.specs.Prelude.{◌≡◌};
ghost use Rattle.answers.specs.Word.{transfer_word, word_of, TransferFits, Fits};

use super::{Answer, Transfer};

// Both halves of 32 bits, so that a machine of 32 bits shifts none over both: the type ID is in the two.
fn of_transfer(t: Transfer) -> u64
    requires { TransferFits t }
    ensures { result ≡ transfer_word t }
{
    let id = t.type_id as u32;
    let low = t.len as u32 * 0x100 + (t.transfer_type as u32 * 0x40000 + id % 0x1000 * 0x100000);
    let high = id / 0x1000
        + (t.source as u32 * 0x10
            + (t.destination as u32 * 0x800
                + (t.priority as u32 * 0x40000 + t.transfer as u32 * 0x800000)));
    low as u64 + high as u64 * 0x100000000
}

// Internal. The number, and above it the transfer that was handed out.
pub fn of_answer(a: Answer) -> u64
    requires { Fits a }
    ensures { result ≡ word_of a }
{
    a.number() + of_transfer(a.transfer())
}
