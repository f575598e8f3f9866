//! The program: derives scrypt keys, makes password hashes, verifies them and replaces weak ones,
//! from the command line. `scrypt_tool --help` prints its commands and options.
//!
//! The password is every byte of the standard input. Without options no newline is cut off, and a
//! key is written in lower-case hexadecimal. A hash is written as its text, and a verdict as `ok`
//! with status 0 or `no` with status 1. `rehash` writes a new hash instead of `ok` if the old one
//! is weaker than wanted.
#![tactic(auto)]

ghost use Rattle.std.specs.Prelude.{⊤};

mod host;

use crate::host::{ExitCode, HostRuntime};
use scrypt_commands::invocation::{Invocation, Machine};
use std::io::{self, ErrorKind, Write};

// Every hash is shorter, except a `$7$` hash with a salt so long that no program makes it.
const MAX_BYTES: u64 = 4096;

// The whole bar of a key's progress.
const FULL: &str = "########################################";

fn main(rt: HostRuntime) -> ExitCode {
    let (mut output, mut errors) = (rt.stdout(), rt.stderr());
    let Ok(words) = host::words(&rt) else {
        let _ = errors.write_all(b"the arguments can't be read\n");
        return ExitCode::from(3);
    };
    let invocation = Invocation::parse(&words);
    if invocation.is_raw() && host::is_terminal(&output) {
        let _ = errors.write_all(b"--raw does not write to a terminal\n");
        return ExitCode::from(2);
    }
    let file_text = match file_text(&rt, invocation.hash_file()) {
        Ok(text) => text,
        Err(status) => return ExitCode::from(status),
    };
    let ended = invocation.run(
        rt.alloc(),
        &System(&rt),
        file_text.as_deref(),
        &mut rt.stdin(),
        &mut output,
        &mut errors,
    );
    let Ok(ended) = ended else {
        let _ = errors.write_all(b"no salt can be drawn\n");
        return ExitCode::from(3);
    };
    ExitCode::from(ended.status)
}

// The system's random bytes, and its standard error.
#[derive(Drop)]
struct System<'a>(&'a HostRuntime);

impl Machine for System<'_> {
    ghost draws = { λ _ _. ⊤ };

    fn draw_salt(&self) -> io::Result<[u8; 16]> {
        let mut salt = [0u8; 16];
        host::fill_random(self.0, &mut salt)?;
        Ok(salt)
    }

    fn show_progress(&self, percent: u8) {
        let mut errors = self.0.stderr();
        if !host::is_terminal(&errors) {
            return;
        }
        let drawn = FULL.len() * usize::from(percent.min(100)) / 100;
        let bar = FULL.get(..drawn).unwrap_or(FULL);
        let _ = write!(errors, "\r[{bar:<40}] {percent:>3} %");
        if percent == 100 {
            let _ = write!(errors, "\r{:48}\r", "");
        }
    }
}

// The hash in the file with this name, if a name is given: the file's text without the newline at its
// end. If it can't be read, prints the reason and returns the status.
fn file_text(rt: &HostRuntime, name: Option<&str>) -> Result<Option<String>, u8> {
    let Some(name) = name else {
        return Ok(None);
    };
    match host::read_text(rt, name, MAX_BYTES) {
        Ok(Some(mut text)) => {
            if text.ends_with('\n') {
                text.pop();
            }
            Ok(Some(text))
        }
        Ok(None) => {
            let _ = writeln!(
                rt.stderr(),
                "{}: more than {MAX_BYTES} bytes",
                name.escape_debug()
            );
            Err(2)
        }
        Err(error) => {
            host::report(rt, name, &error);
            Err(status_of(&error))
        }
    }
}

// The exit status for an error of reading the file: 2 if its content is not a hash.
fn status_of(error: &io::Error) -> u8 {
    match error.kind() {
        ErrorKind::InvalidData => 2,
        ErrorKind::OutOfMemory => 3,
        _ => 4,
    }
}
