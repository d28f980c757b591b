// A capture in a file (RULES 18.2): its trailer first, then its records, a block at a time. For programs that read one. The file is the one that a
// program's argument names, or else standard input, which must be a file.
#![tactic(auto)]

ghost use Rattle.std.specs.Prelude.{◌*◌, ◌^◌, ◌≤◌, ◌<◌, length};
ghost use Rattle.capture_record.specs.Record.{record_size};

use capture_convert::trailer;
use capture_convert::trailer::Trailer;
use console::Progress;
use std::env::FillError;
use std::fs::File;
use std::io::{Read, Seek, SeekFrom};
use std::os::unix::fs::FileTypeExt;
use std::rt::{Env, Files};
use std::{fs, io};

// The records of a block, and its bytes.
pub const RECORDS: usize = 1024;

pub const BLOCK: usize = RECORDS * capture_record::SIZE;

// Why a file is not opened: it is no capture, by its trailer and length; or it cannot be read.
#[derive(Clone, Copy, Debug, PartialEq, Eq)]
pub enum OpenError {
    NoCapture,
    Unreadable,
}

impl From<io::Error> for OpenError {
    fn from(_e: io::Error) -> OpenError {
        OpenError::Unreadable
    }
}

// Where the first record begins, the trailer being at `end`; None if there are fewer records than it says, or more bytes than any file has.
fn begin(t: Trailer, end: u64) -> Option<u64>
    requires { t.count < 2 ^ 32 }
{
    if 0x4000_0000_0000_0000 < end {
        return None;
    }
    end.checked_sub(t.count as u64 * 21)
}

// Reads the trailer, which is at `end`, and goes to the first record.
fn at_trailer(mut file: File, end: u64) -> Result<(File, Trailer), OpenError> {
    let mut bytes = [0u8; trailer::SIZE];
    file.read_exact(&mut bytes)?;
    let Some(t) = trailer::read(&bytes) else {
        return Err(OpenError::NoCapture);
    };
    let from = begin(t, end).ok_or(OpenError::NoCapture)?;
    file.seek(SeekFrom::Start(from))?;
    Ok((file, t))
}

// Internal. Reads the trailer, and goes to the first record. The checksum is not looked at.
pub fn open(rt: &(impl Files<File = File> + Env)) -> Result<(File, Trailer), OpenError> {
    let mut file = input(rt).ok_or(OpenError::Unreadable)?;
    file.seek(SeekFrom::End(0))?;
    match file.seek(SeekFrom::End(-16)) {
        Ok(end) => at_trailer(file, end),
        Err(_) => Err(OpenError::NoCapture),
    }
}

// The file that the first argument names, or standard input.
fn input(rt: &(impl Files<File = File> + Env)) -> Option<File> {
    let mut name = [0u8; 4096];
    match rt.arg(1, &mut name) {
        Ok(n) => named(rt, &name[..n]),
        Err(FillError::NotPresent) => standard_input(rt),
        Err(FillError::TooLong) => None,
    }
}

fn named(rt: &impl Files<File = File>, name: &[u8]) -> Option<File> {
    match std::str::from_utf8(name) {
        Ok(name) => fs::open(rt, name).ok(),
        Err(_) => None,
    }
}

// Standard input with a position of its own, from its first byte on.
fn standard_input(rt: &impl Files<File = File>) -> Option<File> {
    let name = "/dev/fd/0";
    if !console::is_open(rt, name, 0o400) || is_pipe(rt, name) {
        return None;
    }
    fs::open(rt, name).ok()
}

// Of a pipe there is no end to go to, and to open one by its name may wait for a writer.
fn is_pipe(rt: &impl Files, name: &str) -> bool {
    match fs::metadata(rt, name) {
        Ok(m) => m.file_type().is_fifo(),
        Err(_) => true,
    }
}

// Internal. Reads the next records into a block, as many as are left and it has room for; how many, 0 if reading fails.
// No Option: 0 is one of the numbers that it gives, and each caller does with it what it does after a failure.
pub fn next(file: &mut File, block: &mut [u8], left: usize) -> usize
    ensures { (result ≤ left) × (result * record_size ≤ length block.old) }
{
    let k = left.min(block.len() / capture_record::SIZE);
    let n = k * capture_record::SIZE;
    if file.read_exact(&mut block[0..n]).is_err() {
        return 0;
    }
    k
}

// Internal. Says after every 63 MiB how many records are done.
pub fn tell(progress: &mut Progress, done: u64) {
    if done % 3_145_728 == 0 {
        progress.tell(done / 3_145_728 * 63);
    }
}
