// The names of commands, and a command with its options.

ghost use Rattle.std.specs.Prelude.{◌≡◌, IfErr};
ghost use Rattle.scrypt.specs.Terms.{mapped};
ghost use Rattle.scrypt_commands.specs.{command_by, command_line_view, name_of, options_view, status_of, texts_of};

use crate::error::{CliError, Result};
use crate::options::Options;

/// The name of a command.
#[derive(Clone, Copy)]
pub enum Name {
    Key,
    Hash,
    Verify,
    Rehash,
}

impl Name {
    /// Returns the command of this name, or `Usage` if no command has this name.
    #[tactic(auto, using(crate::proofs::CommandFacts::other), unfolding(crate::specs::Invocation::name_of))]
    pub fn of(word: &str) -> Result<Name>
        ensures value { result ≡ name_of word.now }
        ensures refused { IfErr result (λ error. status_of error ≡ 2) }
    {
        match word {
            "key" => Ok(Name::Key),
            "hash" => Ok(Name::Hash),
            "verify" => Ok(Name::Verify),
            "rehash" => Ok(Name::Rehash),
            _ => Err(CliError::Usage),
        }
    }
}

/// A command with its options, whose words are not read yet.
#[derive(Clone, Copy)]
pub struct CommandLine<'a> {
    pub name: Name,
    pub options: Options<'a>,
    /// the words after the name
    pub words: &'a [String],
    /// the salt that was drawn, if the options draw one
    pub drawn: Option<[u8; 16]>,
    /// the text of the hash file, if the options name one
    pub file_text: Option<&'a str>,
}

impl<'a> CommandLine<'a> {
    /// Returns the command of these words with these options, without a salt and without the text
    /// of a file.
    ///
    /// Returns `Usage` if the words name no command, or the options do not fit it.
    pub fn new(options: Options<'a>, words: &'a [String]) -> Result<CommandLine<'a>>
        ensures value { mapped command_line_view result ≡ command_by (options_view options.entry) (texts_of words.now) }
        ensures refused { IfErr result (λ error. status_of error ≡ 2) }
    {
        let Some((word, words)) = words.split_first() else {
            return Err(CliError::Usage);
        };
        let name = Name::of(word.as_str())?;
        if options.is_unfit(name) {
            return Err(CliError::Usage);
        }
        Ok(CommandLine {
            name,
            options,
            words,
            drawn: None,
            file_text: None,
        })
    }
}
