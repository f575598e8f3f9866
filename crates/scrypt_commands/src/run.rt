// The program, over any reader and any two writers.

ghost use Rattle.std.specs.Prelude.{◌≡◌, ◌⊎◌, ◌↔◌, IsTrue, IfOk, IfErr, IfSome, Err, IsErr, OnOk, false, true, ⊤};
ghost use Rattle.std.specs.Io.KnownBytes.{Appends, IsAtEnd, Keeps};
ghost use Rattle.scrypt_commands.specs.{AppendsBeginning, AppendsReply, IsAnswer, IsRun, OnInput, command_line_view};
ghost use Rattle.scrypt_commands.specs.{error_line, outcome, plan_by, plan_of_words, reply_by, request_of, status_of};
ghost use Rattle.scrypt_commands.specs.{texts_of};
ghost use Rattle.scrypt_commands.specs.declared.error.CliError.TheVariants.{InputFailed, OutOfMemory, OutputFailed};

use crate::command::Command;
use crate::command_line::CommandLine;
use crate::error::{CliError, Result};
use crate::invocation::Machine;
use crate::options::NONE;
use scrypt::CoreCount;
use std::alloc::Global;
use std::io;
use std::io::{ErrorKind, Read, Write};

/// How a run ended.
#[derive(Clone, Copy, Debug, PartialEq, Eq)]
pub struct Ended {
    /// the exit status, 0 to 4
    pub status: u8,
    /// the error is `input failed`
    pub input_failed: bool,
    /// there was no error line to write, or it was written whole
    pub fault_told: bool,
}

/// Runs the program on its words, the arguments after its name, without options and limits.
///
/// Parses the words, reads the whole input, which is the password, computes the output line, writes
/// it, with one write if the output takes all of it, and flushes once. The status is 0 after the
/// output line was written, or 1 if it is `no`. The status is 2 if the words are rejected, and then
/// the input is not read, or if the library rejects the hash or the salt; 3 if an allocation
/// failed; and 4 if the input or the output failed. On `output failed` only a prefix of the output
/// line was written, possibly none or all of it. The error line is written to `faults` with one
/// `write_all`; if that fails, the status stays the same.
pub fn run<R: Read, W: Write, F: Write>(
    alloc: Global,
    words: &[String],
    reader: &mut R,
    writer: &mut W,
    faults: &mut F,
) -> Ended
    ensures run { IsRun (plan_of_words (texts_of words.now))
        (record { input = R.remaining reader.old; output = W.contents writer.old; faults = F.contents faults.old })
        (record { input = R.remaining reader.new; output = W.contents writer.new; faults = F.contents faults.new })
        result }
    ensures refused { (plan_of_words (texts_of words.now)).is_unread ≡ true
        → (result.status ≡ 2) ⊎ (result.status ≡ 3) }
{
    match CommandLine::new(NONE, words) {
        Ok(given) => run_command::<Bare, R, W, F>(alloc, None, given, reader, writer, faults),
        Err(usage) => end(usage, faults),
    }
}

/// Does the same for a command with options. The progress of a key is shown by this machine.
#[tactic(auto, using(crate::proofs::OutcomeFacts::ends))]
pub(crate) fn run_command<M: Machine, R: Read, W: Write, F: Write>(
    alloc: Global,
    shown_by: Option<&M>,
    command_line: CommandLine<'_>,
    reader: &mut R,
    writer: &mut W,
    faults: &mut F,
) -> Ended
    ensures run { IsRun (plan_by (command_line_view command_line.entry))
        (record { input = R.remaining reader.old; output = W.contents writer.old; faults = F.contents faults.old })
        (record { input = R.remaining reader.new; output = W.contents writer.new; faults = F.contents faults.new })
        result }
    ensures refused { IsErr (request_of (command_line_view command_line.entry))
        → (result.status ≡ 2) ⊎ (result.status ≡ 3) }
{
    match execute::<M, R, W>(alloc, shown_by, command_line, reader, writer) {
        Ok(status) => answered(status),
        Err(error) => end(error, faults),
    }
}

// The machine of a run without options, which draws no salt and shows no progress.
struct Bare;

impl Machine for Bare {
    ghost draws = { λ _ _. ⊤ };

    fn draw_salt(&self) -> io::Result<[u8; 16]> {
        Err(io::Error::from(ErrorKind::Unsupported))
    }

    fn show_progress(&self, _percent: u8) {}
}

// Carries out the command in order, up to writing the output line, and returns the status.
#[tactic(auto, using(crate::proofs::OutcomeFacts::endings))]
fn execute<M: Machine, R: Read, W: Write>(
    alloc: Global,
    shown_by: Option<&M>,
    command_line: CommandLine<'_>,
    reader: &mut R,
    writer: &mut W,
) -> Result<u8>
    ensures line { IfOk result (AppendsReply (reply_by (command_line_view command_line.entry)) (R.remaining reader.old)
        (W.contents writer.old) (W.contents writer.new)) }
    ensures ok { IfOk result IsAnswer }
    ensures read { OnOk result (IsAtEnd (R.remaining reader.new)) }
    ensures err { IfErr result (λ error. status_of error ≡ 2 → OnInput (R.remaining reader.old) (λ input.
        reply_by (command_line_view command_line.entry) input ≡ Err (error_line error))) }
    ensures read_before_error { IfErr result (λ error. (error ≡ OutOfMemory) ⊎ (error ≡ InputFailed)
        ⊎ IsErr (request_of (command_line_view command_line.entry)) ⊎ IsAtEnd (R.remaining reader.new)) }
    ensures nothing { IfErr result
        (λ error. (error ≡ OutputFailed) ⊎ Keeps (W.contents writer.old) (W.contents writer.new)) }
    ensures begun { IfErr result (λ error. error ≡ OutputFailed
        → OnInput (R.remaining reader.old) (λ input. AppendsBeginning (W.contents writer.old)
        (W.contents writer.new) (outcome (reply_by (command_line_view command_line.entry) input)).line)) }
    ensures refused { IsErr (request_of (command_line_view command_line.entry))
        → IfErr result (λ error. (error ≡ OutOfMemory) ⊎ (status_of error ≡ 2)) × IsErr result
        × Keeps (R.remaining reader.old) (R.remaining reader.new) }
{
    let command = Command::read(alloc, command_line)?;
    let input = read_all(alloc, reader)?;
    let answer = command.answer::<M>(
        alloc,
        shown_by,
        command_line.options.password(&input),
        command_line.options.limit_options,
        &mut CoreCount::new(),
    )?;
    let (status, line) = answer.reply();
    write_line(writer, line)?;
    Ok(status)
}

// Returns every byte of the input.
fn read_all<R: Read>(alloc: Global, reader: &mut R) -> Result<Vec<u8>>
    ensures ok { IfOk result (λ bytes. IfSome (R.remaining reader.old) (λ input. bytes.items ≡ input)) }
    ensures read { OnOk result (IsAtEnd (R.remaining reader.new)) }
    ensures err { IfErr result (λ error. (error ≡ OutOfMemory) ⊎ (error ≡ InputFailed)) }
{
    let mut input = Vec::new(alloc);
    let mut buffer = [0u8; 1024];
    'reads: for _ in 0..u64::MAX {
        let Ok(n) = reader.read(&mut buffer) else {
            return Err(CliError::InputFailed);
        };
        if n == 0 {
            return Ok(input);
        }
        input.extend_from_slice(&buffer[..n])?;
    }
    Err(CliError::InputFailed)
}

/// Writes this line, with one write if the writer takes all of it, and flushes it. An interrupted
/// write is repeated.
///
/// `write_all` of std is not used, because it does not specify what it wrote before an error.
pub(crate) fn write_line<W: Write>(writer: &mut W, line: &[u8]) -> Result<()>
    ensures ok { OnOk result (Appends (W.contents writer.old) (W.contents writer.new) line.now) }
    ensures begun { AppendsBeginning (W.contents writer.old) (W.contents writer.new) line.now }
    ensures err { IfErr result (λ error. error ≡ OutputFailed) }
{
    let mut rest = line;
    'writes: for _ in 0..u64::MAX {
        if rest.is_empty() {
            return writer.flush().map_err(|_| CliError::OutputFailed);
        }
        match writer.write(rest) {
            Ok(0) => return Err(CliError::OutputFailed),
            Ok(n) => rest = &rest[n..],
            Err(error) => {
                if error.kind() != ErrorKind::Interrupted {
                    return Err(CliError::OutputFailed);
                }
            }
        }
    }
    Err(CliError::OutputFailed)
}

/// Ends the run with this status, after its output line was written.
pub(crate) fn answered(status: u8) -> Ended
    ensures status { result.status ≡ status }
    ensures no_error { (result.input_failed ≡ false) × (result.fault_told ≡ true) }
{
    Ended {
        status,
        input_failed: false,
        fault_told: true,
    }
}

/// Ends the run with this error, and writes its error line.
pub(crate) fn end<F: Write>(error: CliError, faults: &mut F) -> Ended
    ensures status { result.status ≡ status_of error }
    ensures failed { IsTrue result.input_failed ↔ (error ≡ InputFailed) }
    ensures written { IsTrue result.fault_told
        → Appends (F.contents faults.old) (F.contents faults.new) (error_line error) }
{
    Ended {
        status: error.status(),
        input_failed: matches!(error, CliError::InputFailed),
        fault_told: error.write_to(faults).is_ok(),
    }
}
