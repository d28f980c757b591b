// What the files of the types share: a message that reads as a row, one that a row alone makes, and the call of each.
ghost use Rattle.std.specs.Prelude.{◌≡◌, ℕ, ◌^◌, ◌<◌, ◌≤◌, List, length};
ghost use Rattle.shape.specs.Answer.{Answer, Numbered, numbered, answer_of, map_answer, wrote};
ghost use Rattle.row.specs.Row.{row, given, word_of, message};

use shape::answer::Refusal;

// Internal. A message that reads as a row of N.
pub trait AsRow<const N: usize>: Sized {
    // what a payload gives
    ghost read: { List ℕ → Answer Self };

    ghost words: { Self → List ℕ };

    fn read(payload: &[u8]) -> Result<Self, Refusal>
        ensures { answer_of result ≡ numbered (read payload.now) };

    fn words(self) -> [u64; N]
        ensures { result ≡ words self };
}

// Internal. Reads a message into a row: 8 for too few places, after what the reader refuses.
pub fn decode<const N: usize, T: AsRow<N>>(payload: &[u8], fields: &mut [u64]) -> u32
    requires { N < 2 ^ 60 }
    ensures { (result, fields.new) ≡ row (map_answer T.words (T.read payload.now)) fields.old }
{
    match T::read(payload) {
        Err(r) => r.number(),
        Ok(x) => {
            let w = x.words();
            row::put(&w, fields)
        }
    }
}

// Internal. A message that a row of N makes, with no list beside it.
pub trait OfRow<const N: usize>: Sized {
    ghost of_row: { List ℕ → Self };

    // what a message and the room for it give
    ghost write: { Self → ℕ → Answer (List ℕ) };

    fn of_row(fields: &[u64]) -> Self
        requires { N ≤ length fields.now }
        ensures { result ≡ of_row fields.now };

    fn write(self, out: &mut [u8]) -> Result<usize, Refusal>
        ensures { (answer_of result, out.new) ≡ wrote (write self (length out.old)) out.old };

    // what it answers fits a result word
    ghost fits: { (x : Self) (m : List ℕ) (w : Numbered ℕ) (m' : List ℕ) → (w, m') ≡ wrote (write x (length m)) m → word_of w < 2 ^ 64 };
}

// Internal. Writes the message of a row: 15 for a row that is too short, then what the writer refuses.
pub fn encode<const N: usize, T: OfRow<N>>(fields: &[u64], out: &mut [u8]) -> u64
    ensures { (result, out.new) ≡ message (given N fields.now (T.write (T.of_row fields.now) (length out.old))) out.old }
{
    if fields.len() < N {
        return 15;
    }
    row::of_written(T::of_row(fields).write(out))
}
