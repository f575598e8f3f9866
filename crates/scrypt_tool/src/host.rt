//! What the program asks of its system beyond the three standard streams. No other file of the
//! program names the kit's runtime.

use std::fs::{Files, OpenOptions};
use std::io::{IsTerminal, Read};
pub(crate) use std::process::ExitCode;
use std::random::RandomSource;
pub(crate) use std::rt::HostRuntime;
use std::{env, io};

/// Returns the arguments after the program's name.
pub(crate) fn words(rt: &HostRuntime) -> io::Result<Vec<String>> {
    Ok(env::args(rt)?.skip(1).collect(rt.alloc())?)
}

/// Returns whether this stream is a terminal.
pub(crate) fn is_terminal<S: IsTerminal>(stream: &S) -> bool {
    stream.is_terminal()
}

/// Fills `bytes` with random bytes of the system.
pub(crate) fn fill_random(rt: &HostRuntime, bytes: &mut [u8]) -> io::Result<()> {
    rt.fill_bytes(bytes)
}

/// Returns the text of the file with this name, or `None` if it has more than `max_len` bytes.
pub(crate) fn read_text(rt: &HostRuntime, name: &str, max_len: u64) -> io::Result<Option<String>> {
    let mut text = String::new(rt.alloc());
    // `fs::open` would add every function of the file system to the trusted computing base.
    let file = rt.open_file(OpenOptions::new().read(true), name)?;
    let mut file = file.take(max_len.saturating_add(1));
    if file.read_to_string(&mut text)? as u64 > max_len {
        return Ok(None);
    }
    Ok(Some(text))
}

/// Writes a line to the standard error, which says why the file with this name can't be read.
pub(crate) fn report(rt: &HostRuntime, name: &str, error: &io::Error) {
    let name = name.escape_debug();
    let _ = eprintln!(rt; "{name}: {error}");
}
