// The end of a message without a list at its end (RULES 9.6).
ghost use Rattle.std.specs.Prelude.{◌≡◌, ◌*◌, ◌^◌, ◌≤◌, ◌<◌, length, drop};
ghost use Rattle.bits.specs.Order.{unpack};
ghost use Rattle.shape.specs.Answer.{numbered, answer_of};
ghost use Rattle.shape.specs.Shape.{end, decode};

use super::answer::Refusal;
use bits::field;

// Internal. What the bits from bit `at` on are refused for if no field follows: 16 for a byte of them, then 25 for one that is set.
pub fn refusal(s: &[u8], at: usize) -> Result<(), Refusal>
    requires { (at < 2 ^ 32) × (at ≤ length s.now * 8) }
    ensures { answer_of result ≡ numbered (decode end (drop at (unpack s.now))) }
{
    if (at + 7) / 8 < s.len() {
        return Err(Refusal::TooLong);
    }
    let left = s.len() * 8 - at;
    if field::read(s, at, left) != 0 {
        return Err(Refusal::Padding);
    }
    Ok(())
}
