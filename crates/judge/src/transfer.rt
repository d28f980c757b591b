// Why a frame is at fault in its stream (RULES 19.5, 19.7), by what is kept of the stream.
ghost use Rattle.std.specs.Prelude.{◌≡◌, ◌≤◌, length};
ghost use Rattle.capture_record.specs.Record.{record_size};
ghost use Rattle.judge_streams.specs.inside.Table.{Table};
ghost use Rattle.state.specs.Layout.{size};

use super::fault::Fault;
use super::text;
use console::Console;
use judge_stream::Kept;
use judge_streams::SIZE;
use rules::limits::GATHERED;

// ---- what was expected ----

fn expect_any_start(console: &mut Console) {
    text::expected(console, b"a start, with any transfer ID\n");
}

// A start after the last transfer.
fn expect_next_start(console: &mut Console, k: Kept, f: Fault) {
    let next = (k.transfer as u64 + 1) % 32;
    if f.head.transfer_type == 2 {
        return expect_any_start(console);
    }
    text::expected(console, b"a start with transfer ID ");
    text::number(console, next);
    if 0 < next {
        text::say(
            console,
            b", or with 0 if 2 s or more after the start before it, at ",
        );
        text::seconds(console, k.since);
        text::say(console, b" s");
    }
    text::say(console, b"\n");
}

// A frame that continues the transfer in hand.
fn expect_continuation(console: &mut Console, k: Kept) {
    text::expected(console, b"ID ");
    text::hex(console, k.id as u64, 8);
    text::say(console, b", no start, toggle ");
    text::number(console, k.toggle as u64);
    text::say(console, b", transfer ID ");
    text::number(console, k.transfer as u64);
    text::say(console, b"; the transfer in hand began at ");
    text::seconds(console, k.since);
    text::say(console, b" s\n");
}

// ---- 24 ----

fn no_start(console: &mut Console) {
    text::rule(
        console,
        b"19.5: a frame that is no start continues a transfer, and none is in hand",
    );
}

fn wrong_transfer(console: &mut Console, k: Kept, f: Fault) {
    text::rule(
        console,
        b"19.5: a transfer ID is that of the transfer before raised by one, or 0 if that one started 2 s or more before",
    );
    expect_next_start(console, k, f);
}

fn start_inside(console: &mut Console, k: Kept) {
    text::rule(
        console,
        b"19.5: a transfer has all its frames before the next one of its stream starts, and one is in hand",
    );
    expect_continuation(console, k);
}

// Payload bytes: those of the frames, without tail byte and checksum.
fn short_payload(console: &mut Console, k: Kept, f: Fault) {
    let carried = (k.count as u64).wrapping_add(f.len as u64);
    text::rule(
        console,
        b"7.4: a payload of up to 7 bytes goes in one frame",
    );
    text::expected(console, b"a start that is an end, for all ");
    text::number(console, carried.wrapping_sub(3));
    text::say(console, b" payload bytes\n");
}

// No start, at a transfer in hand: the first thing that differs from a continuation, or else the payload is short.
fn inside(console: &mut Console, k: Kept, f: Fault) {
    if k.id != f.id {
        text::rule(console, b"19.5: the frames of a transfer have one priority");
        return expect_continuation(console, k);
    }
    if k.transfer != f.head.transfer {
        text::rule(
            console,
            b"7.4: the frames of a transfer have one transfer ID",
        );
        return expect_continuation(console, k);
    }
    if k.toggle != f.head.toggle {
        text::rule(
            console,
            b"7.4: the frames of a transfer have toggles 0, 1, 0 and so on",
        );
        return expect_continuation(console, k);
    }
    short_payload(console, k, f);
}

// 24, of a stream that was there before.
fn out_of_order(console: &mut Console, k: Kept, f: Fault) {
    if 0 < k.count {
        if f.head.start {
            return start_inside(console, k);
        }
        return inside(console, k, f);
    }
    if f.head.start {
        return wrong_transfer(console, k, f);
    }
    no_start(console);
    expect_next_start(console, k, f);
}

// ---- 11 and 12 ----

fn too_long(console: &mut Console, k: Kept) {
    text::rule(
        console,
        b"19.5: a payload has at most 512 bytes, 514 with its checksum",
    );
    text::expected(console, b"an end with at most ");
    text::number(console, (GATHERED as u64).wrapping_sub(k.count as u64));
    text::say(console, b" payload bytes: the frames before it carry ");
    text::number(console, k.count as u64);
    text::say(console, b" of 514\n");
}

fn show_sum(console: &mut Console, sum: u16) {
    text::hex(console, sum as u64, 4);
    text::say(console, b" (bytes");
    text::bytes(console, &[(sum % 256) as u8, (sum / 256) as u8]);
    text::say(console, b")");
}

fn subscribed(state: &[u8], f: Fault) -> Option<u64>
    requires { size ≤ length state.now }
{
    if f.head.transfer_type == 0 {
        return subscriptions::find(state, 0, f.head.type_id as u32);
    }
    subscriptions::find(state, 1, f.head.type_id as u32)
}

fn show_signature(console: &mut Console, state: &[u8], f: Fault)
    requires { size ≤ length state.now }
{
    match subscribed(state, f) {
        None => text::say(console, b"no signature"),
        Some(signature) => {
            text::say(console, b"signature ");
            text::hex(console, signature, 16);
        }
    }
}

fn wrong_sum(console: &mut Console, state: &[u8], k: Kept, f: Fault, sum: u16)
    requires { size ≤ length state.now }
{
    text::rule(
        console,
        b"7.4: a payload of several frames has its checksum in front",
    );
    text::expected(console, b"checksum ");
    show_sum(console, sum);
    text::say(console, b" in front, as worked out under ");
    show_signature(console, state, f);
    text::say(console, b"; there is ");
    show_sum(console, k.sum);
    text::say(console, b"\n");
}

// ---- all ----

// The register after the frame's payload.
fn sum_after(k: Kept, r: &[u8], len: usize) -> u16
    requires { length r.now ≡ record_size }
{
    if 0 < len {
        if len <= 8 {
            return checksum::crc16::over(k.register, &r[13..12 + len]);
        }
    }
    k.register
}

fn of_known(console: &mut Console, state: &[u8], k: Kept, r: &[u8], f: Fault, number: u8)
    requires { (size ≤ length state.now) × (length r.now ≡ record_size) }
{
    match number {
        11 => too_long(console, k),
        12 => wrong_sum(console, state, k, f, sum_after(k, r, f.len)),
        _ => out_of_order(console, k, f),
    }
}

// Internal.
pub fn explain(
    console: &mut Console,
    state: &[u8],
    table: &[u64; SIZE],
    r: &[u8],
    f: Fault,
    number: u8,
)
    requires { (size ≤ length state.now) × (Table table.now × (length r.now ≡ record_size)) }
{
    match judge_streams::of_stream(table, f.id) {
        None => {
            no_start(console);
            expect_any_start(console);
        }
        Some(k) => of_known(console, state, k, r, f, number),
    }
}
