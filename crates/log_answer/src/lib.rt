// The text of an answer in a log, after the time (RULES 12.5).
#![tactic(auto)]

ghost use Rattle.std.specs.Prelude.{◌≡◌, [], ◌∷◌, ◌+◌, ◌*◌, ◌≤◌, ◌<◌, length};
ghost use Rattle.log_answer.specs.Answer.{numbered as numbered_text, letter_of, payload_text, transfer_text, answer_text};
ghost use Rattle.digits.specs.inside.Text.{Puts};

use answers::{Answer, Transfer};

fn put(out: &mut [u8], at: usize, c: u8) -> usize
    requires { at < length out.old }
    ensures { Puts out.old out.new at result (c ∷ []) }
{
    out[at] = c;
    at + 1
}

// Internal. A sign and a number.
pub fn numbered(out: &mut [u8], at: usize, sign: u8, n: u64) -> usize
    requires { at + 24 ≤ length out.old }
    ensures { (Puts out.old out.new at result (numbered_text sign n)) × (result ≤ at + 24) }
{
    let vs = [n];
    let a = put(out, at, 32);
    let b = put(out, a, sign);
    let c = digits::put_words(out, b, &vs);
    put(out, c, 10)
}

fn letter(transfer_type: u8) -> u8
    ensures { result ≡ letter_of transfer_type }
{
    match transfer_type {
        0 => 77,
        1 => 81,
        _ => 82,
    }
}

fn put_payload(out: &mut [u8], at: usize, payload: &[u8]) -> usize
    requires { at + 1 + length payload.now * 2 ≤ length out.old }
    ensures { (Puts out.old out.new at result (payload_text payload.now)) × (result ≤ at + 1 + length payload.now * 2) }
{
    if payload.len() == 0 {
        return put(out, at, 45);
    }
    digits::put_hexes(out, at, payload)
}

fn put_transfer(out: &mut [u8], at: usize, t: Transfer, payload: &[u8]) -> usize
    requires { at + 131 + length payload.now * 2 ≤ length out.old }
    ensures { (Puts out.old out.new at result (transfer_text t payload.now)) × (result ≤ at + 131 + length payload.now * 2) }
{
    let vs = [
        t.type_id as u64,
        t.source as u64,
        t.destination as u64,
        t.priority as u64,
        t.transfer as u64,
        t.len as u64,
    ];
    let a = put(out, at, 32);
    let b = put(out, a, letter(t.transfer_type));
    let c = digits::put_words(out, b, &vs);
    let d = put(out, c, 32);
    let e = put_payload(out, d, payload);
    put(out, e, 10)
}

// Internal. The answer of a reception; `payload` is the receiver's output buffer.
pub fn put_answer(out: &mut [u8], at: usize, a: Answer, payload: &[u8]) -> usize
    requires { at + 131 + length payload.now * 2 ≤ length out.old }
    ensures { (Puts out.old out.new at result (answer_text a payload.now)) × (result ≤ at + 131 + length payload.now * 2) }
{
    let n = a.number();
    if n == 1 {
        let t = a.transfer();
        let len = t.len;
        if len < payload.len() {
            return put_transfer(out, at, t, &payload[0..len]);
        }
        return put_transfer(out, at, t, payload);
    }
    if n == 0 {
        return numbered(out, at, b'+', n);
    }
    numbered(out, at, b'-', n)
}
