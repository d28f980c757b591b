// What C calls: a function for each C entry, around the proved calls. tecelume_c gives them to C; include/tecelume.h documents them.
#![tactic(auto)]

pub mod messages;

ghost use Rattle.std.specs.Prelude.{◌≡◌, ◌%◌};
ghost use Rattle.tecelume.specs.Condition3.{word_bytes};
ghost use Rattle.tecelume.specs.Entry.{version, numbered, numbered_map, numbered_allocator, entry, packed, packed_many, packed_send, packed_allocation, signed, packed_signatures, packed_conversion};
ghost use Rattle.allocator.specs.Allocate.{allocated};
ghost use Rattle.allocator.specs.Setup as allocator;
ghost use Rattle.allocator_table.specs.Layout as table;
ghost use Rattle.batch.specs.Many.{received_many};
ghost use Rattle.dsdl_signature.specs.Call.{signatures};
ghost use Rattle.capture_convert.specs.Convert.{captured, uncaptured};
ghost use Rattle.id_map.specs.Layout as layout;
ghost use Rattle.id_map.specs.Setup as setting;
ghost use Rattle.judge_capture.specs.Judge.{judges};
ghost use Rattle.patch.specs.Patch.{patches};
ghost use Rattle.receiver.specs.Receive.{arrival_of, received};
ghost use Rattle.rules.specs.Condition3.{Condition3};
ghost use Rattle.rules.specs.Damage.{BurstIsCaught};
ghost use Rattle.sender.specs.Send.{sends};
ghost use Rattle.setup.specs.Setup.{after_setup};
ghost use Rattle.state.specs.Layout.{size};
ghost use Rattle.types.specs.Types.{signature_of};
ghost use Rattle.words.specs.Word.{patch_word, verdict_word};

use allocator::Request;
use allocator_table::free::Reserved;
use transport::Outgoing;

// The version of the library: major, minor and patch in bits 16 up, 8 to 15 and 0 to 7.
pub fn tecelume_version() -> u32
    ensures { result ≡ version }
{
    0x000200
}

// The bytes of a receiver's state.
pub fn tecelume_receiver_size() -> u64
    ensures { result ≡ size }
{
    state::layout::SIZE as u64
}

// Sets a receiver up in a lent state: 0, 13 or 20.
pub fn tecelume_setup(state: &mut [u8], own: u32, subscriptions: &[u8]) -> u32
    ensures { record { number = result; state = state.new } ≡ numbered (after_setup state.old own subscriptions.now) }
{
    answers::setup_number(transport::setup(state, own, subscriptions))
}

// One frame on a lent state: the result word.
pub fn tecelume_receive_word(
    state: &mut [u8],
    id: u32,
    frame: &[u8],
    interface: u32,
    time: u64,
    out: &mut [u8],
) -> u64
    ensures { entry result state.new out.new ≡ packed (received state.old (arrival_of id frame.now interface time) out.old) }
{
    answers::word::of_answer(transport::receive(state, id, frame, interface, time, out))
}

// Several frames on a lent state: the number and, from bit 8 on, how many records were used up; a result word for each in `results`.
pub fn tecelume_receive_many_word(
    state: &mut [u8],
    records: &[u8],
    results: &mut [u8],
    out: &mut [u8],
) -> u64
    ensures { record { word = result; state = state.new; results = results.new; out = out.new } ≡ packed_many (received_many state.old records.now results.old out.old) }
{
    words::of_progress(transport::receive_many(state, records, results, out))
}

// The bytes of a transfer-ID map.
pub fn tecelume_map_size() -> u64
    ensures { result ≡ layout.size }
{
    transport::map_size() as u64
}

// Makes a lent map one without an entry: 0 or 20.
pub fn tecelume_map_setup(map: &mut [u8]) -> u32
    ensures { record { number = result; state = map.new } ≡ numbered_map (setting.after_setup map.old) }
{
    answers::setup_number(transport::map_setup(map))
}

// A payload as records of frames, on a lent map: the number and, from bit 8 on, how many frames.
pub fn tecelume_send_word(
    map: &mut [u8],
    own: u32,
    transfer_type: u32,
    type_id: u32,
    destination: u32,
    priority: u32,
    payload: &[u8],
    signature: u64,
    time: u64,
    transfer_id: u32,
    discriminator: u32,
    out: &mut [u8],
) -> u64
    ensures { entry result map.new out.new ≡ packed_send (sends map.old (record { own = own; transfer_type = transfer_type; type = type_id; destination = destination; priority = priority; payload = payload.now; signature = signature; time = time; transfer = transfer_id; discriminator = discriminator }) out.old) }
{
    let c = Outgoing {
        own,
        transfer_type,
        type_id,
        destination,
        priority,
        signature,
        time,
        transfer_id,
        discriminator,
    };
    words::of_sent(transport::send(map, c, payload, out))
}

// A transfer's checksum after a byte of its payload was rewritten: the number and, from bit 8 on, the corrected checksum. No number refuses a
// checksum of more than 16 bits or a byte of more than 8: their low bits count.
pub fn tecelume_patch_word(checksum: u32, old: u32, new: u32, after: u64) -> u64
    ensures { result ≡ patch_word (patches (checksum % 65536) (old % 256) (new % 256) after) }
{
    words::of_patched(transport::patch(
        (checksum % 65536) as u16,
        (old % 256) as u8,
        (new % 256) as u8,
        after as usize,
    ))
}

// The signature of a standard type, of kind 0 (message) or 1 (service); 0 of any other.
pub fn tecelume_signature(kind: u32, type_id: u32) -> u64
    ensures { result ≡ signature_of kind type_id }
{
    types::signature(kind, type_id)
}

// The bytes of an allocator's state.
pub fn tecelume_allocator_size() -> u64
    ensures { result ≡ table.size }
{
    allocator::size() as u64
}

// Makes a lent state an allocator with an empty table: 0 or 20.
pub fn tecelume_allocator_setup(state: &mut [u8]) -> u32
    ensures { record { number = result; state = state.new } ≡ numbered_allocator (allocator.after_setup state.old) }
{
    answers::setup_number(allocator::setup(state))
}

// One Allocation message on a lent state: the number and, from bit 8 on, the length of the reply's payload.
pub fn tecelume_allocate_word(
    state: &mut [u8],
    own: u32,
    marks_low: u64,
    marks_high: u64,
    source: u32,
    payload: &[u8],
    time: u64,
    out: &mut [u8],
) -> u64
    ensures { entry result state.new out.new ≡ packed_allocation (allocated state.old (record { reserved = record { own = own; low = marks_low; high = marks_high }; source = source; time = time }) payload.now out.old) }
{
    let reserved = Reserved {
        own,
        low: marks_low,
        high: marks_high,
    };
    let q = Request {
        reserved,
        source,
        time,
    };
    words::of_allocation(allocator::allocate(state, q, payload, out))
}

// Signatures of type definitions: the result word, the forms in `out`, a record of 12 bytes for each.
pub fn tecelume_signatures_word(
    source: &[u8],
    lengths: &[u8],
    out: &mut [u8],
    records: &mut [u8],
) -> u64
    ensures { signed result out.new records.new ≡ packed_signatures (signatures source.now lengths.now out.old records.old) }
{
    words::of_signatures(dsdl_signature::call::signatures(source, lengths, out, records))
}

// A log as a capture: the number and, from bit 8 on, its length.
pub fn tecelume_capture_word(log: &[u8], out: &mut [u8]) -> u64
    ensures { record { word = result; out = out.new } ≡ packed_conversion (captured log.now out.old) }
{
    words::of_converted(capture_convert::capture(log, out))
}

// A capture as a log: the number and, from bit 8 on, its length.
pub fn tecelume_uncapture_word(capture: &[u8], out: &mut [u8]) -> u64
    ensures { record { word = result; out = out.new } ≡ packed_conversion (uncaptured capture.now out.old) }
{
    words::of_converted(capture_convert::uncapture(capture, out))
}

// A capture judged under subscriptions: the number and, from bit 8 on, the frame that it is for.
pub fn tecelume_judge_word(subscriptions: &[u8], capture: &[u8]) -> u64
    ensures { result ≡ verdict_word (judges subscriptions.now capture.now) }
{
    words::of_verdict(judge_capture::judge(subscriptions, capture))
}

// RULES 14.14: condition 3, of what a C program reads.
pub fn condition3_words()
    ensures { Condition3 word_bytes }
{}

// RULES 14.18: a burst is caught, of what a C program reads.
pub fn burst_is_caught_words()
    ensures { BurstIsCaught word_bytes }
{}
