// The options before a command.

ghost use Rattle.std.specs.Prelude.{◌≡◌, option_map};
ghost use Rattle.scrypt_commands.specs.{is_unfit, options_of, options_view, password_of, texts_of, with_option};
ghost use Rattle.scrypt_commands.specs.{with_value, without_newline};

use crate::command_line::Name;
use crate::limit_options::LimitOptions;

/// The options before a command.
#[derive(Clone, Copy)]
pub struct Options<'a> {
    /// the limits on the hash of `verify` and `rehash`, if there are any
    pub limit_options: Option<LimitOptions>,
    /// a salt is drawn for `hash` and `rehash`
    pub draws_salt: bool,
    /// `hash` takes the recommended parameters, and a salt is drawn
    pub is_recommended: bool,
    /// the password is the input without a newline at its end
    pub strips_newline: bool,
    /// a key is written as its bytes instead of as hexadecimal digits
    pub is_raw: bool,
    /// the progress of a key is shown
    pub shows_progress: bool,
    /// the file whose text is HASH, the last word
    pub hash_file: Option<&'a str>,
}

/// No options.
pub const NONE: Options<'static> = Options {
    limit_options: None,
    draws_salt: false,
    is_recommended: false,
    strips_newline: false,
    is_raw: false,
    shows_progress: false,
    hash_file: None,
};

/// Parses the options, and also returns the words after them. The command begins at the first word
/// that is not an option.
#[tactic(auto, unfolding(crate::specs::Options::options_after))]
pub fn parse_options<'a>(words: &'a [String]) -> (Options<'a>, &'a [String])
    ensures value { (options_view result.0, texts_of result.1.now) ≡ options_of (texts_of words.now) }
{
    let mut options = NONE;
    let mut rest = words;
    while let Some((word, after)) = rest.split_first() {
        let Some(next) = options.with(word.as_str()) else {
            return (options, rest);
        };
        options = next;
        rest = after;
    }
    (options, rest)
}

impl<'a> Options<'a> {
    // Returns the options with this option added, or `None` if the word is not an option.
    #[tactic(auto, using(crate::proofs::CommandFacts::other), unfolding(crate::specs::Options::with_option))]
    fn with(self, word: &'a str) -> Option<Options<'a>>
        ensures value { option_map options_view result ≡ with_option (options_view self.entry) word.now }
    {
        let mut options = self;
        match word {
            "--default-limits" => options.limit_options = Some(LimitOptions::DEFAULT),
            "--generate-salt" => options.draws_salt = true,
            "--recommended" => {
                options.is_recommended = true;
                options.draws_salt = true;
            }
            "--strip-newline" => options.strips_newline = true,
            "--raw" => options.is_raw = true,
            "--progress" => options.shows_progress = true,
            _ => return self.with_value(word),
        }
        Some(options)
    }

    // Returns the options with this option added, whose value follows its first `=`, or `None` if
    // there is no option with this name and value.
    #[tactic(auto, using(crate::proofs::CommandFacts::other))]
    fn with_value(self, word: &'a str) -> Option<Options<'a>>
        ensures value { option_map options_view result ≡ with_value (options_view self.entry) word.now }
    {
        let Some((name, value)) = word.split_once('=') else {
            return None;
        };
        let mut options = self;
        if name == "--hash-file" {
            options.hash_file = Some(value);
        } else {
            let limits = self.limit_options.unwrap_or(LimitOptions::DEFAULT);
            options.limit_options = Some(limits.with_number(name, value)?);
        }
        Some(options)
    }

    /// Returns whether an option does not fit this command.
    pub fn is_unfit(self, name: Name) -> bool
        ensures value { result ≡ is_unfit (options_view self.entry) name }
    {
        match name {
            Name::Key => self.limit_options.is_some()
                || self.hash_file.is_some()
                || self.draws_salt,
            Name::Hash => self.limit_options.is_some()
                || self.hash_file.is_some()
                || self.is_raw
                || self.shows_progress,
            Name::Verify => self.draws_salt || self.is_raw || self.shows_progress,
            Name::Rehash => self.is_recommended || self.is_raw || self.shows_progress,
        }
    }

    /// Returns the password of an input.
    pub fn password(self, input: &[u8]) -> &[u8]
        ensures value { result.now ≡ password_of self.entry.strips_newline input.now }
    {
        if self.strips_newline {
            without_newline(input)
        } else {
            input
        }
    }
}

// Returns the text without the newline at its end, which is one `\n` or `\r\n`.
fn without_newline(text: &[u8]) -> &[u8]
    ensures { result.now ≡ without_newline text.now }
{
    if text.ends_with(b"\r\n") {
        return &text[..text.len() - 2];
    }
    if text.ends_with(b"\n") {
        return &text[..text.len() - 1];
    }
    text
}
