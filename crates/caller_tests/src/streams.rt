// The commands over streams that read or write one byte in each call, and fail.
// `tools/tests/streams.py` has the system's streams.

ghost use Rattle.std.specs.Prelude.{◌≤◌, IfOk};

use crate::holds;
use crate::program::printed;
use scrypt_commands::run::{Ended, run};
use std::alloc::{AllocError, Global};
use std::io::{Error, ErrorKind, Read, Result, Write};
use std::test::Fail;

// A reader of letters `x`, or a writer, one byte in each call. The call after the first `end` calls
// returns the error, or zero bytes if `error` is `None`. After that a writer takes bytes again, and
// a reader is at its end. A writer marks each flush with a `^`.
#[derive(Drop)]
struct Stream {
    end: usize,
    error: Option<ErrorKind>,
    calls: usize,
    text: Vec<u8>,
}

impl Stream {
    fn new(alloc: Global, (end, error): Kind) -> Stream {
        Stream {
            end,
            error,
            calls: 0,
            text: Vec::new(alloc),
        }
    }

    // Reads or writes a byte, and returns the number of bytes, 1 or 0.
    fn step(&mut self) -> Result<usize>
        ensures bound { IfOk result (λ n. n ≤ 1) }
    {
        let is_end = self.calls == self.end;
        self.calls = self.calls.saturating_add(1);
        if !is_end {
            return Ok(1);
        }
        match self.error {
            Some(kind) => Err(Error::from(kind)),
            None => Ok(0),
        }
    }
}

impl Read for Stream {
    fn read(&mut self, buf: &mut [u8]) -> Result<usize> {
        let Some(place) = buf.first_mut() else {
            return Ok(0);
        };
        *place = b'x';
        let given = self.step()?;
        Ok(if self.calls > self.end { 0 } else { given })
    }
}

impl Write for Stream {
    fn write(&mut self, buf: &[u8]) -> Result<usize> {
        let Some(byte) = buf.first() else {
            return Ok(0);
        };
        let taken = self.step()?;
        if taken > 0 {
            self.text.push(*byte)?;
        }
        Ok(taken)
    }

    fn flush(&mut self) -> Result<()> {
        self.text.push(b'^')?;
        let _ = self.step()?;
        Ok(())
    }
}

// The end of a stream and its error.
type Kind = (usize, Option<ErrorKind>);

// A command line; the kinds of its input, its output, and its error output; the status; the bytes
// written to the output and to the error output; and the reason for the row.
type Row<'a> = (&'a str, [Kind; 3], u8, [&'a str; 2], &'static str);

// The words of a command line.
fn words_of(alloc: Global, line: &str) -> std::result::Result<Vec<String>, AllocError> {
    let mut words = Vec::new(alloc);
    for word in line.split(' ') {
        words.push(String::from_str(alloc, word)?)?;
    }
    Ok(words)
}

// Runs a command line, and fails unless the run ends as the row states. The input is read up to the
// call that ends it, unless the command line or its hash is rejected before.
fn check(alloc: Global, row: Row<'_>) -> std::result::Result<(), Fail> {
    let (line, [input, output, faults], status, [written, told], reason) = row;
    let wanted = Ended {
        status,
        input_failed: told.starts_with("input failed"),
        fault_told: faults.0 == usize::MAX,
    };
    let at_end = input.0.saturating_add(1);
    let reads = if status == 2 { 0 } else { at_end };
    let words = words_of(alloc, line)?;
    let mut input = Stream::new(alloc, input);
    let mut output = Stream::new(alloc, output);
    let mut faults = Stream::new(alloc, faults);
    let ended = run(alloc, &words, &mut input, &mut output, &mut faults);
    let is_so = (ended == wanted)
        & (input.calls == reads)
        & (output.text.as_slice() == written.as_bytes())
        & (faults.text.as_slice() == told.as_bytes());
    holds(is_so, reason)
}

const OTHER: Option<ErrorKind> = Some(ErrorKind::Other);

const INTERRUPTED: Option<ErrorKind> = Some(ErrorKind::Interrupted);

// A stream without an end; the input `xxx`; the empty one; and a stream that fails at once.
const ALL: Kind = (usize::MAX, None);

const INPUT: Kind = (3, None);

const NONE: Kind = (0, None);

const BAD: Kind = (0, OTHER);

const KEY: &str = "key 4 1 1 64 ";

// The hash of the empty password, and that of `xxx`.
const VERIFY: &str = "verify $7$2/..../....$rNxJWVHNv/mCNcgE/f6/L4zO6Fos5c2uTzhyzoisI62";

const REHASH: &str =
    "rehash mcf 4 1 1 64  $7$2/..../....$W.DC6SK1n8Wquj250SWcOF3iCywSlnx7anZDmvlBgp.";

// Command lines, inputs, statuses, outputs by hashlib (the first is RFC 7914's), and the reason.
static ANSWERS: [(&str, Kind, u8, &str, &str); 5] = [
    (
        KEY,
        NONE,
        0,
        "77d6576238657b203b19ca42c18a0497f16b4844e3074ae8dfdffa3fede21442fcd0069ded0948f8326a753a0fc81f17e8d3e0fb2e0d3628cf35e20c38d18906\n^",
        "a key, in a line of 129 bytes",
    ),
    (VERIFY, NONE, 0, "ok\n^", "the right password"),
    ("verify $7$2/..../....$W.", INPUT, 0, "ok\n^", "three reads"),
    (VERIFY, INPUT, 1, "no\n^", "no part of `ok`"),
    (
        REHASH,
        INPUT,
        0,
        "$7$2/..../....$W.DC6SK1n8Wquj250SWcOF3iCywSlnx7anZDmvlBgpEi8gB7S.Cxn9DTXq4b4WKMqapANi30HQSkzFv7IEny71\n^",
        "a new hash",
    ),
];

const NO_INPUT: &str = "input failed\n";

const NO_OUTPUT: &str = "output failed\n";

const UNREAD: &str = "hash refused: EncodingInvalid\n";

// Command lines, inputs that fail, and the reason for the row.
static INPUTS: [(&str, Kind, &str); 9] = [
    (KEY, BAD, "an input that seems empty"),
    (KEY, (1, OTHER), "after a first piece"),
    (KEY, (99_999, OTHER), "after many pieces"),
    (KEY, (1, INTERRUPTED), "no read is tried again"),
    (VERIFY, (3, OTHER), "no verdict on a part"),
    ("verify $7$", BAD, "its fields are read later"),
    (REHASH, BAD, "an old hash, and no input"),
    (REHASH, (99_999, OTHER), "after many pieces"),
    (REHASH, (1, INTERRUPTED), "and one error"),
];

// A command line, its input, output and error output, the status, what is written to both outputs,
// and the reason for the row.
static ENDS: [(&str, Kind, Kind, Kind, u8, &str, &str, &str); 9] = [
    (
        "key 4 1 1 16 ",
        (1_999_999, None),
        ALL,
        ALL,
        0,
        "6d2a4ebafb0d1dbdd84a749eb3eceaf2\n^",
        "",
        "the key of 2,000,000 reads, by hashlib",
    ),
    (KEY, NONE, NONE, ALL, 4, "", NO_OUTPUT, "it takes no byte"),
    (REHASH, INPUT, NONE, ALL, 4, "", NO_OUTPUT, "nor of a hash"),
    (VERIFY, NONE, (1, INTERRUPTED), ALL, 0, "ok\n^", "", "again"),
    ("verify $scrypt$", BAD, ALL, ALL, 2, "", UNREAD, "before it"),
    ("key 4 1 1 0 ", NONE, ALL, BAD, 2, "", "", "no error line"),
    ("key 4 1 1 0 ", NONE, ALL, (1, OTHER), 2, "", "i", "a part"),
    (KEY, BAD, ALL, (12, None), 4, "", "input failed", "newline"),
    (REHASH, INPUT, BAD, BAD, 4, "", "", "neither takes a byte"),
];

// The call after the last byte of an answer is the flush, which ends the run: no call follows it.
#[test]
fn failing_outputs(rt: HostRuntime) -> std::result::Result<(), Fail> {
    for &(line, input, status, answer, reason) in &ANSWERS {
        let whole = answer.len();
        for end in 0..whole {
            // A flush that fails is marked too.
            let len = if end + 1 == whole { whole } else { end };
            let texts = [answer.get(..len).unwrap_or(""), NO_OUTPUT];
            let streams = [input, (end, OTHER), ALL];
            check(rt.alloc(), (line, streams, 4, texts, reason))?;
        }
        let streams = [input, ALL, ALL];
        check(rt.alloc(), (line, streams, status, [answer, ""], reason))?;
    }
    Ok(())
}

#[test]
fn failing_inputs(rt: HostRuntime) -> std::result::Result<(), Fail> {
    for &(line, input, reason) in &INPUTS {
        let streams = [input, ALL, ALL];
        check(rt.alloc(), (line, streams, 4, ["", NO_INPUT], reason))?;
    }
    Ok(())
}

#[test]
fn other_ends(rt: HostRuntime) -> std::result::Result<(), Fail> {
    for &(line, input, output, faults, status, written, told, reason) in &ENDS {
        let streams = [input, output, faults];
        check(rt.alloc(), (line, streams, status, [written, told], reason))?;
    }
    Ok(())
}

// One byte per write gives the same output as a single write, however many calls that takes: a key
// of 5,000 bytes takes 10,001.
#[test]
fn a_long_line(rt: HostRuntime) -> std::result::Result<(), Fail> {
    let alloc = rt.alloc();
    let words = words_of(alloc, "key 4 1 1 5000 ")?;
    let (status, whole) = printed(alloc, &words, b"xxx");
    let mut output = Stream::new(alloc, ALL);
    let mut input = Stream::new(alloc, INPUT);
    let mut faults = Stream::new(alloc, ALL);
    let ended = run(alloc, &words, &mut input, &mut output, &mut faults);
    holds(status == 0 && ended.status == 0, "both end well")?;
    holds(whole.len() == 10_001, "two digits for each byte")?;
    let (written, flushed) = output.text.split_at(whole.len().min(output.text.len()));
    holds(
        written == whole.as_slice() && flushed == b"^".as_slice(),
        "the same line, and one flush",
    )
}
