//! Invocations: command lines whose first words can be options.

ghost use Rattle.std.specs.Prelude.{◌≡◌, ◌⊎◌, ℕ, IfOk, IsTrue, List, [], OnErr, Option, length, true};
ghost use Rattle.std.specs.Io.KnownBytes.{Keeps};
ghost use Rattle.std.specs.Bool.{then_some};
ghost use Rattle.std.specs.Option.{option_copied};
ghost use Rattle.scrypt_commands.specs.{EndsUnread, IsRefusedUnread, IsRun, invocation_of, invocation_view, options_in};
ghost use Rattle.scrypt_commands.specs.{options_view, plan_of, text_of, text_of_words, texts_of, unread_plan};

use crate::command_line::CommandLine;
use crate::error::CliError;
use crate::options::{NONE, Options, parse_options};
use crate::run::{Ended, answered, end, run_command, write_line};
use crate::usage::{HELP, VERSION};
use std::alloc::Global;
use std::io;
use std::io::{Read, Write};

/// The machine that the program runs on.
pub trait Machine {
    /// the salts that it draws
    ghost draws: { Self → List ℕ → Type 0 };

    /// Draws a salt at random.
    fn draw_salt(&self) -> io::Result<[u8; 16]>
        ensures drawn { IfOk result (λ salt. draws self.now salt) };

    /// Shows which percentage of a key is done. Nothing is promised of what is shown.
    fn show_progress(&self, percent: u8);
}

/// A parsed command line.
#[derive(Clone, Copy)]
pub enum Invocation<'a> {
    /// a text about the program
    Tell(&'static str),
    /// an invalid command line
    Refuse(CliError),
    /// a command with options that fit it
    Command(CommandLine<'a>),
}

impl<'a> Invocation<'a> {
    /// Parses the options, which come first, or a single word that asks for a text about the
    /// program. The words of the command are read by `run`.
    pub fn parse(words: &'a [String]) -> Invocation<'a>
        ensures value { invocation_view result ≡ invocation_of (texts_of words.now) }
    {
        if let Some(text) = text_of_words(words) {
            return Invocation::Tell(text);
        }
        let (options, words) = parse_options(words);
        match CommandLine::new(options, words) {
            Ok(command_line) => Invocation::Command(command_line),
            Err(error) => Invocation::Refuse(error),
        }
    }

    // Returns the options of the command, or none if there is no command.
    fn options(&self) -> Options<'a>
        ensures { options_view result ≡ options_in (invocation_view self.now) }
    {
        match self {
            Invocation::Command(command_line) => command_line.options,
            _ => NONE,
        }
    }

    /// Returns the name of the file that contains the hash, if `--hash-file` is given: then pass
    /// its text to `run`, which reads no files.
    pub fn hash_file(&self) -> Option<&'a str>
        ensures value { option_copied result ≡ (options_in (invocation_view self.now)).hash_file }
    {
        self.options().hash_file
    }

    /// Returns whether the output is the raw bytes of a key (`--raw`), which should not go to a
    /// terminal.
    pub fn is_raw(&self) -> bool
        ensures value { result ≡ (options_in (invocation_view self.now)).is_raw }
    {
        self.options().is_raw
    }

    /// Runs the program on this invocation, with the text of the hash file if the options name one.
    /// Without options it does what `run` does, by the law
    /// [`run_has_no_options`](crate::laws::run_has_no_options).
    ///
    /// Prints the text that `--help` or `--version` ask for. Draws a salt of 16 bytes on `machine`
    /// if the options ask for one.
    ///
    /// Returns an error only if the options ask for a salt and the machine fails to draw one. Then
    /// the input is not read, and nothing is written. Only a salt that the machine has drawn is
    /// used.
    pub fn run<M: Machine, R: Read, W: Write, F: Write>(
        self,
        alloc: Global,
        machine: &M,
        file_text: Option<&str>,
        reader: &mut R,
        writer: &mut W,
        faults: &mut F,
    ) -> io::Result<Ended>
        ensures run { IfOk result (λ ended. (salt : List ℕ) × (length salt ≡ 16)
            × ((options_in (invocation_view self.entry)).draws_salt ≡ true → M.draws machine.now salt)
            × IsRun (plan_of salt (option_copied file_text.entry) (invocation_view self.entry))
            (record { input = R.remaining reader.old; output = W.contents writer.old; faults = F.contents faults.old })
            (record { input = R.remaining reader.new; output = W.contents writer.new; faults = F.contents faults.new })
            ended) }
        ensures without_input { IfOk result (EndsUnread (invocation_view self.entry)) }
        ensures refused { IfOk result (λ ended. IsRefusedUnread (option_copied file_text.entry)
            (invocation_view self.entry) → (ended.status ≡ 2) ⊎ (ended.status ≡ 3)) }
        ensures drawn { OnErr result (IsTrue (options_in (invocation_view self.entry)).draws_salt) }
        ensures unread { OnErr result (Keeps (R.remaining reader.old) (R.remaining reader.new)
            × Keeps (W.contents writer.old) (W.contents writer.new)
            × Keeps (F.contents faults.old) (F.contents faults.new)) }
    {
        match self {
            Invocation::Tell(text) => Ok(print(text, writer, faults)),
            Invocation::Refuse(error) => Ok(end(error, faults)),
            Invocation::Command(command_line) => {
                let command_line = CommandLine {
                    drawn: draw(machine, command_line.options.draws_salt)?,
                    file_text,
                    ..command_line
                };
                let shown_by = command_line.options.shows_progress.then_some(machine);
                Ok(run_command::<M, R, W, F>(alloc, shown_by, command_line, reader, writer, faults))
            }
        }
    }
}

// Draws a salt if required. Returns the machine's error.
fn draw<M: Machine>(machine: &M, is_drawn: bool) -> io::Result<Option<[u8; 16]>>
    ensures salt { IfOk result (λ drawn. (salt : List ℕ) × (length salt ≡ 16)
        × (is_drawn ≡ true → M.draws machine.now salt) × (drawn ≡ then_some is_drawn salt)) }
    ensures drawn { OnErr result (IsTrue is_drawn) }
{
    if !is_drawn {
        return Ok(None);
    }
    Ok(Some(machine.draw_salt()?))
}

// Returns the text about the program that these words ask for: only a single word asks for one.
#[tactic(auto, unfolding(crate::specs::Invocation::text_of_words))]
fn text_of_words(words: &[String]) -> Option<&'static str>
    ensures { option_copied result ≡ text_of_words (texts_of words.now) }
{
    match words {
        [word] => text_of(word.as_str()),
        _ => None,
    }
}

// Returns the text about the program that a word asks for, or `None`.
#[tactic(auto, using(crate::proofs::CommandFacts::other), unfolding(crate::specs::Invocation::text_of))]
fn text_of(word: &str) -> Option<&'static str>
    ensures { option_copied result ≡ text_of word.now }
{
    match word {
        "--help" | "-h" => Some(HELP),
        "--version" => Some(VERSION),
        _ => None,
    }
}

// Writes a text to the output.
#[tactic(auto, using(crate::proofs::OutcomeFacts::without_input))]
fn print<W: Write, F: Write>(text: &str, writer: &mut W, faults: &mut F) -> Ended
    ensures run { (input : Option (List ℕ)) → IsRun (unread_plan (record { status = 0; line = text.now; error = [] }))
        (record { input = input; output = W.contents writer.old; faults = F.contents faults.old })
        (record { input = input; output = W.contents writer.new; faults = F.contents faults.new }) result }
    ensures status { (result.status ≡ 0) ⊎ (result.status ≡ 4) }
    ensures output { ¬ IsTrue result.input_failed }
{
    match write_line(writer, text.as_bytes()) {
        Ok(()) => answered(0),
        Err(error) => end(error, faults),
    }
}
