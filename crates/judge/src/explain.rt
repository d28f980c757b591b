// Why a frame is at fault, by the number (RULES 19.7): the rule that it breaks, and what was expected in its place.
ghost use Rattle.std.specs.Prelude.{◌≡◌, ◌≤◌, length};
ghost use Rattle.capture_record.specs.Record.{record_size};
ghost use Rattle.judge_streams.specs.inside.Table.{Table};
ghost use Rattle.state.specs.Layout.{size};

use super::fault::Fault;
use super::{fault, text, transfer};
use console::Console;
use judge_streams::SIZE;

fn id_too_large(console: &mut Console) {
    text::rule(console, b"4.1, check 2: an ID is below 2^29");
    text::expected(console, b"an ID of at most 1FFFFFFF\n");
}

fn bad_length(console: &mut Console, f: Fault) {
    text::rule(console, b"4.1, check 3: a frame has 1 to 8 data bytes");
    text::expected(console, b"1 to 8 data bytes, not ");
    text::number(console, f.len as u64);
    text::say(console, b"\n");
}

fn unnamed_service(console: &mut Console) {
    text::rule(
        console,
        b"4.1, check 4: a service has a source and a destination",
    );
    text::expected(console, b"a source and a destination from 1 to 127\n");
}

// The first of check 5's tests that the tail byte fails.
fn bad_tail(console: &mut Console, f: Fault) {
    if f.head.start && f.head.toggle {
        text::rule(console, b"4.1, check 5: a start has toggle 0");
        return text::expected(console, b"toggle 0\n");
    }
    if frame::check::is_anonymous(f.head) {
        text::rule(console, b"4.1, check 5: an anonymous message is one frame");
        return text::expected(console, b"a start that is an end\n");
    }
    if f.head.end {
        text::rule(
            console,
            b"4.1, check 5: an end that is no start has more than the tail byte",
        );
        return text::expected(console, b"a payload byte at least\n");
    }
    text::rule(
        console,
        b"4.1, check 5: a frame that is no end has 8 data bytes",
    );
    text::expected(console, b"8 data bytes, or an end\n");
}

fn not_subscribed(console: &mut Console, f: Fault) {
    text::rule(
        console,
        b"4.1, check 7: there is a subscription for a frame's type",
    );
    text::expected(
        console,
        b"a subscribed type; to subscribe to this one, give --subscriptions a list with the line ",
    );
    if f.head.transfer_type == 0 {
        text::say(console, b"M ");
    } else {
        text::say(console, b"S ");
    }
    text::number(console, f.head.type_id as u64);
    text::say(console, b" SIGNATURE\n");
}

fn many_streams(console: &mut Console) {
    text::rule(
        console,
        b"19.4: a capture has at most 64 streams with a named source",
    );
    text::expected(console, b"a frame of one of the 64 streams before it\n");
}

// Internal. All lines on the frame of record r, which has this number.
pub fn explain(console: &mut Console, state: &[u8], table: &[u64; SIZE], r: &[u8], number: u8)
    requires { (size ≤ length state.now) × (Table table.now × (length r.now ≡ record_size)) }
{
    let f = fault::read(r);
    fault::show(console, r, f);
    match number {
        2 => id_too_large(console),
        3 => bad_length(console, f),
        4 => unnamed_service(console),
        5 => bad_tail(console, f),
        7 => not_subscribed(console, f),
        9 => many_streams(console),
        _ => transfer::explain(console, state, table, r, f, number),
    }
}
