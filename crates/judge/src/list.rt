// The list of subscriptions (RULES 19.11) on descriptor 4: a byte that says how many, at most 65, and the records of RULES 3.3. ../../tecelume makes it of
// the text. Where the descriptor is not open, the list is that of the log program.
use answers::SetupError;
use console::Console;
use rules::limits::{SUBSCRIPTION_RECORD, SUBSCRIPTIONS};
use std::fs;
use std::fs::File;
use std::io::Read;
use std::rt::Files;

// One record more than there may be is enough to be refused.
const ROOM: usize = (SUBSCRIPTIONS + 1) * SUBSCRIPTION_RECORD;

// Whether a setup took the list; if not, a line on standard error.
fn taken(console: &Console, outcome: Result<(), SetupError>) -> bool {
    match outcome {
        Ok(()) => true,
        Err(SetupError::Unacceptable) => {
            console.say(
                "13: the list has more than 64 subscriptions, a type twice, or a type ID above 65535 (messages) or 255 (services)\n",
            );
            false
        }
        Err(SetupError::Short) => {
            console.cannot_read();
            false
        }
    }
}

fn standard(console: &Console, state: &mut [u8]) -> bool {
    let records = log_subscriptions::subscriptions();
    taken(console, setup::setup(state, 0, &records))
}

// So many records.
fn given(
    console: &Console,
    file: &mut File,
    state: &mut [u8],
    records: &mut [u8],
    count: usize,
) -> bool {
    if records.len() / SUBSCRIPTION_RECORD < count {
        console.cannot_read();
        return false;
    }
    let n = count * SUBSCRIPTION_RECORD;
    if file.read_exact(&mut records[0..n]).is_err() {
        console.cannot_read();
        return false;
    }
    taken(console, setup::setup(state, 0, &records[0..n]))
}

// Internal. Sets a receiver up that has the subscriptions; false, and a line on standard error, if the list is refused or cannot be read.
pub fn accepted(rt: &impl Files<File = File>, console: &Console, state: &mut [u8]) -> bool {
    let mut records = [0u8; ROOM];
    let mut count = [0u8; 1];
    let name = "/dev/fd/4";
    if !console::is_open(rt, name, 0o400) {
        return standard(console, state);
    }
    let Ok(mut file) = fs::open(rt, name) else {
        console.cannot_read();
        return false;
    };
    match file.read(&mut count) {
        Ok(0) => {
            console.cannot_read();
            false
        }
        Ok(_) => given(
            console,
            &mut file,
            state,
            &mut records,
            bits::le::wide(count[0]) as usize,
        ),
        Err(_) => standard(console, state),
    }
}
