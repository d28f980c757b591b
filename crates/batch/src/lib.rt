// Several frames in one call (RULES 5.8): records of frames that came, received one after the other on a state that is tested once.
#![tactic(auto)]

pub mod laws;
pub mod layout;

ghost use Rattle.std.specs.Prelude.{true, ◌&&◌, ◌≡◌, min, ◌+◌, ◌*◌, ◌^◌, ◌≤◌, ◌<◌, ltb, length, Ok, Err};
ghost use Rattle.batch.specs.Answer.{number_of};
ghost use Rattle.batch.specs.Layout.{arrival_size, result_size, data_length, arrival_at};
ghost use Rattle.batch.specs.Many.{returned, batch, told, received_many};
ghost use Rattle.batch.specs.inside.Turn.{Received};
ghost use Rattle.bits.specs.Tabulate.{tabulate};
ghost use Rattle.rules.specs.Limits.{payload_max};
ghost use Rattle.state.specs.Sound.{sound_state};

use layout::{ARRIVAL, DATA_AT, ID_AT, INTERFACE_AT, LENGTH_AT, RECORDS, RESULT};
use rules::limits::{FRAME_DATA, PAYLOAD};

// Why no frame of a call on several is received: a state at fault.
#[derive(Clone, Copy, Debug, PartialEq, Eq)]
pub enum BatchError {
    Faulty,
}

impl BatchError {
    // The number answered.
    pub fn number(self) -> u32
        ensures { result ≡ number_of (Err self) }
    {
        match self {
            BatchError::Faulty => 20,
        }
    }
}

// The data bytes that a record's length stands for: more than eight are one too many, which 3 refuses.
fn data_length(n: u8) -> usize
    ensures { (result ≡ data_length n) × (result ≤ 9) }
{
    if FRAME_DATA < n as usize {
        return FRAME_DATA + 1;
    }
    n as usize
}

// Record i is received, on a state without a fault, which has none after: its result word.
fn receive_one(state: &mut [u8], records: &[u8], i: usize, out: &mut [u8]) -> u64
    requires { (sound_state state.old ≡ true) × (i * arrival_size + arrival_size ≤ length records.now) }
    ensures { Received state.old (arrival_at records.now i) out.old result state.new out.new }
{
    guarantees::state_lasts();
    let at = i * ARRIVAL;
    let data = at + DATA_AT;
    let end = data + data_length(records[at + LENGTH_AT]);
    answers::word::of_answer(receiver::receive_sound(
        state,
        bits::le::get_u32(records, at + ID_AT),
        &records[data..end],
        records[at + INTERFACE_AT] as u32,
        bits::le::get_u64(records, at),
        out,
    ))
}

// A payload was handed out, and past it there is too little room for any other.
fn is_full(len: usize, past: usize, room: usize) -> bool
    requires { past + payload_max < 2 ^ 64 }
    ensures { result ≡ (ltb 0 len && ltb room (past + payload_max)) }
{
    if 0 < len {
        return room < past + PAYLOAD;
    }
    false
}

// The first n records, one after the other, with a result word for each, until a payload is handed out that leaves too little room in the output
// buffer for another: how many were used up. A payload stands after those handed out before it.
fn receive_all(
    state: &mut [u8],
    records: &[u8],
    n: usize,
    results: &mut [u8],
    out: &mut [u8],
) -> usize
    requires { (sound_state state.old ≡ true) × ((n * arrival_size ≤ length records.now) × (n * result_size ≤ length results.old)) }
    ensures { returned (Ok result) state.new results.new out.new ≡ told (batch state.old (tabulate (arrival_at records.now) 0 n) out.old) results.old }
{
    let mut past = 0;
    for i in 0..n {
        let word = receive_one(state, records, i, &mut out[past..]);
        bits::le::put_u64(results, i * RESULT, word);
        let len = (word / 256 % 1024) as usize;
        past += len;
        if is_full(len, past, out.len()) {
            return i + 1;
        }
    }
    n
}

// Not `min` of the library: the translation to C takes only two generic functions of it.
fn least(a: usize, b: usize) -> usize
    ensures { result ≡ min a b }
{
    if a < b {
        return a;
    }
    b
}

// Frames received one after the other: how many, the state after them, a result word for each and the output buffer. A state at fault answers 20.
pub fn receive_many(
    state: &mut [u8],
    records: &[u8],
    results: &mut [u8],
    out: &mut [u8],
) -> Result<usize, BatchError>
    ensures { returned result state.new results.new out.new ≡ received_many state.old records.now results.old out.old }
{
    if sessions::sound::is_sound(state) {
        let n = least(
            least(records.len() / ARRIVAL, results.len() / RESULT),
            RECORDS,
        );
        return Ok(receive_all(state, records, n, results, out));
    }
    Err(BatchError::Faulty)
}
