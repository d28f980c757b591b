// The verdict (RULES 19.11): its line for programs and its sentence.
use super::text;
use console::Console;

// Internal. Says on standard error that all is written, by the number.
pub fn told(console: &Console, number: u8) {
    console.say(format_args!("{number}\n"));
}

// Internal.
pub fn passes(console: &mut Console, frames: u64) {
    text::say(console, b"0\npasses: ");
    text::number(console, frames);
    if frames == 1 {
        text::say(console, b" frame\n");
    } else {
        text::say(console, b" frames\n");
    }
    told(console, 0);
}

// Internal.
pub fn no_capture(console: &mut Console) {
    text::say(
        console,
        b"22\nnot a capture, or damaged: its trailer is wrong (RULES 18.2)\n",
    );
    told(console, 22);
}

// Internal. Of so many frames one is at fault; more lines follow.
pub fn fails(console: &mut Console, number: u8, frame: u64, frames: u64) {
    text::number(console, number as u64);
    text::say(console, b" ");
    text::number(console, frame);
    text::say(console, b"\ndoes not pass: frame ");
    text::number(console, frame);
    text::say(console, b" (counted from 0) of ");
    text::number(console, frames);
    text::say(console, b" is the first at fault\n");
}
