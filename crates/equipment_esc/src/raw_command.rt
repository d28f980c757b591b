// RawCommand (message 1030; RULES 10.10): a list of signed numbers of 14 bits, and nothing else.
ghost use Rattle.std.specs.Prelude.{◌≡◌, true, false, ◌++◌, map, ◌*◌, ◌-◌, ◌≤◌, length, take, replicate};
ghost use Rattle.bits.specs.Order.{unpack, bytes_for, store};
ghost use Rattle.shape.specs.Answer.{numbered, answer_of, wrote};
ghost use Rattle.shape.specs.Shape.{item_bits, items_of, all_below};
ghost use Rattle.shape.specs.Signed.{signed_of};
ghost use Rattle.equipment_esc.specs.RawCommand.{pattern_of, command_encoded, command_in};

use shape::answer::Refusal;
use shape::{cast, items, signed};

// A command for each motor: the first `count` places. A reader leaves the others zero, a writer ignores them.
#[derive(Drop)]
pub struct RawCommand {
    pub count: usize,
    pub cmd: [i64; 20],
}

// What the patterns stand for.
fn numbers(patterns: [u64; 20]) -> [i64; 20]
    requires { all_below 16384 patterns ≡ true }
    ensures { result ≡ map (signed_of 14) patterns }
{
    let mut cmd = [0i64; 20];
    for i in 0..20 {
        let v = signed::value(patterns[i], 14);
        cmd[i] = v;
    }
    cmd
}

// The first n items of the payload, and zeros.
fn read_patterns(payload: &[u8], n: usize) -> [u64; 20]
    requires { (n ≤ 20) × (n * 14 ≤ length payload.now * 8) }
    ensures { result ≡ items_of 14 n (unpack payload.now) ++ replicate (20 - n) 0 }
{
    let mut places = [0u64; 20];
    items::read(payload, 0, 14, &mut places[0..n]);
    places
}

// Reads commands: 16 for too many or for a byte left over, 25 for bits left over that are not zero.
pub fn decode(payload: &[u8]) -> Result<RawCommand, Refusal>
    ensures { answer_of result ≡ numbered (command_in payload.now) }
{
    let count = items::count(payload, 0, 14, 20)?;
    Ok(RawCommand {
        count,
        cmd: numbers(read_patterns(payload, count)),
    })
}

// The patterns of the first n, saturated, and zeros. Not one with `numbers`: that would take a closure, which the translation to C has not.
fn patterns(cmd: [i64; 20], n: usize) -> [u64; 20]
    requires { n ≤ 20 }
    ensures { result ≡ map pattern_of (take n cmd) ++ replicate (20 - n) 0 }
{
    let mut p = [0u64; 20];
    for i in 0..n {
        let v = cmd[i];
        p[i] = cast::signed(v, 14);
    }
    p
}

// The first n of p at the front of `out`, and zeros to the end of the byte.
fn write_patterns(p: [u64; 20], n: usize, out: &mut [u8])
    requires { (n ≤ 20) × (bytes_for (n * 14) ≤ length out.old) }
    ensures { out.new ≡ store out.old 0 (item_bits 14 (take n p) ++ replicate (bytes_for (n * 14) * 8 - n * 14) false) }
{
    items::write(out, 0, 14, &p[0..n]);
    items::pad(out, n * 14);
}

// Writes commands to the front of `out`, saturated: 17 for more than 20, then 8 for too little room.
pub fn encode(x: RawCommand, out: &mut [u8]) -> Result<usize, Refusal>
    ensures { (answer_of result, out.new) ≡ wrote (command_encoded x (length out.old)) out.old }
{
    let n = x.count;
    let cmd = x.cmd;
    if 20 < n {
        return Err(Refusal::NotAllowed);
    }
    let len = (n * 14 + 7) / 8;
    if out.len() < len {
        return Err(Refusal::NoRoom);
    }
    write_patterns(patterns(cmd, n), n, out);
    Ok(len)
}
