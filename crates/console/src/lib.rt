// The three standard streams of a program, and what it says when reading or writing fails: a line on standard error. ../../tecelume gives an exit status
// by that line. And the descriptors that a program is given besides the streams.
#![tactic(auto)]

ghost use Rattle.std.specs.Prelude.{◌≤◌, length, IfSome};

use std::fmt::Display;
use std::fs;
use std::fs::{File, OpenOptions};
use std::io::{ErrorKind, Read, Stderr, Stdin, Stdout, Write};
use std::os::unix::fs::PermissionsExt;
use std::process::ExitCode;
use std::rt::Files;

// The streams, and whether it is known that nobody reads the output any more.
#[derive(Drop)]
pub struct Console {
    input: Stdin,
    output: Stdout,
    error: Stderr,
    left: bool,
}

impl Console {
    // Internal.
    pub fn new(input: Stdin, output: Stdout, error: Stderr) -> Console {
        Console {
            input,
            output,
            error,
            left: false,
        }
    }

    // Internal. One read of standard input: how many bytes, 0 at the end. None, and the line, if it fails.
    pub fn read(&mut self, block: &mut [u8]) -> Option<usize>
        ensures { IfSome result (λ n. n ≤ length block.new) }
    {
        match self.input.read(block) {
            Ok(n) => Some(n),
            Err(_) => {
                self.cannot_read();
                None
            }
        }
    }

    // Internal. Writes the text to standard output. False if it could not be written whole, and then the line; but where nobody reads the output
    // any more, the program says nothing from then on.
    pub fn written(&mut self, text: &[u8]) -> bool {
        if self.left {
            return false;
        }
        match self.output.write_all(text) {
            Ok(()) => true,
            Err(e) => {
                self.left = e.kind() == ErrorKind::BrokenPipe;
                self.say("tecelume: writing failed\n");
                false
            }
        }
    }

    // Internal. Writes the text to standard error. Of a failure there is nobody to tell.
    pub fn say(&self, text: impl Display + Drop) {
        if !self.left {
            let _ = self.error.eprint(text);
        }
    }

    // Internal. The line for a failed read of standard input.
    pub fn cannot_read(&self) {
        self.say("tecelume: reading failed\n");
    }

    // Internal. Says on standard error that all is done and written: the number 0, as a refusal says its own. Without it ../../tecelume takes what was
    // written for half.
    pub fn done(&self) {
        self.say("0\n");
    }

    // Internal. What the program ends with: 141 where nobody reads its output any more, as if the system had ended it for that; else 0.
    pub fn status(&self) -> ExitCode {
        if self.left {
            ExitCode::from(141)
        } else {
            ExitCode::SUCCESS
        }
    }
}

// Internal. Whether the system says so of a descriptor, a name in /dev/fd: it is open for reading (mode 0o400) or writing (0o200). To open the name
// alone does not tell, as that asks for the rights to the file.
pub fn is_open(rt: &impl Files, name: &str, mode: u32) -> bool {
    match fs::symlink_metadata(rt, name) {
        Ok(m) => m.permissions().mode() & mode != 0,
        Err(_) => false,
    }
}

// Where a program says how far it is: descriptor 3, which ../../tecelume makes the terminal, or nothing.
#[derive(Drop)]
pub struct Progress {
    to: Option<File>,
}

// Internal. To be called before the program keeps a file open, which the system might make descriptor 3.
pub fn open_progress(rt: &impl Files<File = File>) -> Progress {
    let name = "/dev/fd/3";
    if !is_open(rt, name, 0o200) {
        return Progress { to: None };
    }
    Progress {
        to: OpenOptions::new().append(true).open(rt, name).ok(),
    }
}

impl Progress {
    // Internal. How many MiB are done.
    pub fn tell(&mut self, mib: u64) {
        if let Some(file) = &mut self.to {
            let _ = write!(file, "\rtecelume: {mib} MiB");
        }
    }

    // Internal. Takes away what `tell` said.
    pub fn ends(&mut self) {
        if let Some(file) = &mut self.to {
            let _ = file.write_all(b"\r\x1b[K");
        }
    }
}
