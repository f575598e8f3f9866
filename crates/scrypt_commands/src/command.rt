// Commands, read from their words.

ghost use Rattle.std.specs.Prelude.{◌≡◌};
ghost use Rattle.std.specs.Option.{option_copied};
ghost use Rattle.scrypt_commands.specs.{Gives, before_words, checked_params, command_line_view, end_of, first_word};
ghost use Rattle.scrypt_commands.specs.{format_word, hash_word, hash_words, key_words, len_word, making_of, making_view};
ghost use Rattle.scrypt_commands.specs.{optional_len, params_words, rehash_words, request_of, request_view, salt_of};
ghost use Rattle.scrypt_commands.specs.{salt_word, texts_of, verify_words};

use crate::command_line::{CommandLine, Name};
use crate::error::{CliError, Result};
use password_hash::decimal::{read_u8, read_u32, read_usize};
use scrypt::{Params, StoredHash, output_len_ok};
use std::alloc::Global;

/// A command, read from its words.
#[derive(Drop)]
pub enum Command<'a> {
    /// `key` or `hash`: make a key, or the text of a hash, from the password.
    Make(Making),
    /// `verify` or `rehash`: verify the password against the hash. If it matches, and the hash is
    /// weaker than wanted, make the wanted one in its place.
    Verify(StoredHash<'a>, Option<Making>),
}

/// A key or a hash that is to be made from a password.
#[derive(Drop)]
pub struct Making {
    pub target: Target,
    pub params: Params,
    pub salt: Vec<u8>,
}

/// The kind of result that is made from a password.
#[derive(Clone, Copy)]
pub enum Target {
    /// a key of `len` bytes, an allowed length, in hexadecimal unless it is raw
    Key { len: usize, is_raw: bool },
    /// a hash of this format
    Hash { format: Format },
}

/// A format of hash texts.
#[derive(Clone, Copy)]
pub enum Format {
    /// the PHC string format
    Phc,
    /// the `$7$` form of crypt(5)
    Mcf,
}

/// LOG_N, R and P, not yet checked.
#[derive(Clone, Copy)]
pub struct UncheckedParams {
    pub log_n: u8,
    pub r: u32,
    pub p: u32,
}

/// The salt of a command.
#[derive(Clone, Copy)]
pub enum Salt<'a> {
    /// SALT_HEX
    Digits(&'a str),
    /// bytes that were drawn
    Drawn([u8; 16]),
}

/// The recommended parameters.
const RECOMMENDED: UncheckedParams = UncheckedParams {
    log_n: Params::RECOMMENDED_LOG_N,
    r: Params::RECOMMENDED_R,
    p: Params::RECOMMENDED_P,
};

// A value that is read from the first words, and the words after them.
type Read<'a, T> = Result<(T, &'a [String])>;

impl<'a> Command<'a> {
    /// Reads the words of a command. There are no words for the recommended parameters of `hash`,
    /// for a drawn salt, and for a hash that is read from a file.
    ///
    /// Returns the error of the first of these that is wrong: `Usage`, `SaltNotHex`,
    /// `InvalidParams`, `InvalidOutputLen`, and `EncodingInvalid`. Returns `OutOfMemory` if the
    /// allocation of the salt fails.
    #[tactic(auto, unfolding(crate::specs::Command::request_of))]
    pub fn read(alloc: Global, given: CommandLine<'a>) -> Result<Command<'a>>
        ensures command { Gives request_view (request_of (command_line_view given.entry)) result }
    {
        let (options, words, drawn) = (given.options, given.words, given.drawn);
        match given.name {
            Name::Key => key_words(alloc, options.is_raw, words),
            Name::Hash => hash_words(alloc, options.is_recommended, drawn, words),
            Name::Verify => verify_words(given.file_text, words),
            Name::Rehash => rehash_words(alloc, drawn, given.file_text, words),
        }
    }
}

// Reads the words after `key`.
#[tactic(auto, unfolding(crate::specs::Command::key_words))]
fn key_words<'a>(alloc: Global, is_raw: bool, words: &'a [String]) -> Result<Command<'a>>
    ensures { Gives request_view (key_words is_raw (texts_of words.now)) result }
{
    let (params, words) = params_words(false, words)?;
    let (len, words) = len_word(words)?;
    let (salt, words) = salt_word(None, words)?;
    end_of(words)?;
    let making = making_of(alloc, Target::Key { len, is_raw }, params, None, salt)?;
    if !output_len_ok(len) {
        return Err(CliError::InvalidOutputLen);
    }
    Ok(Command::Make(making))
}

// Reads the words after `hash`. There are no words for the recommended parameters.
#[tactic(auto, unfolding(crate::specs::Command::hash_words))]
fn hash_words<'a>(
    alloc: Global,
    is_recommended: bool,
    drawn: Option<[u8; 16]>,
    words: &'a [String],
) -> Result<Command<'a>>
    ensures { Gives request_view (hash_words is_recommended drawn (texts_of words.now)) result }
{
    let (format, words) = format_word(words)?;
    let (params, words) = params_words(is_recommended, words)?;
    let (salt, words) = salt_word(drawn, words)?;
    let len = optional_len(words)?;
    if is_recommended && len.is_some() {
        return Err(CliError::Usage);
    }
    let making = making_of(alloc, Target::Hash { format }, params, len, salt)?;
    Ok(Command::Make(making))
}

// Reads the words after `verify`.
#[tactic(auto, unfolding(crate::specs::Command::verify_words))]
fn verify_words<'a>(file_text: Option<&'a str>, words: &'a [String]) -> Result<Command<'a>>
    ensures { Gives request_view (verify_words (option_copied file_text.entry) (texts_of words.now)) result }
{
    let (text, words) = hash_word(file_text, words)?;
    end_of(words)?;
    let hash = StoredHash::read(text)?;
    Ok(Command::Verify(hash, None))
}

// Reads the words after `rehash`.
#[tactic(auto, unfolding(crate::specs::Command::rehash_words))]
fn rehash_words<'a>(
    alloc: Global,
    drawn: Option<[u8; 16]>,
    file_text: Option<&'a str>,
    words: &'a [String],
) -> Result<Command<'a>>
    ensures { Gives request_view (rehash_words drawn (option_copied file_text.entry) (texts_of words.now)) result }
{
    let (format, words) = format_word(words)?;
    let (params, words) = params_words(false, words)?;
    let (len, words) = len_word(words)?;
    let (salt, words) = salt_word(drawn, words)?;
    let (text, words) = hash_word(file_text, words)?;
    end_of(words)?;
    let wanted = making_of(alloc, Target::Hash { format }, params, Some(len), salt)?;
    let hash = StoredHash::read(text)?;
    Ok(Command::Verify(hash, Some(wanted)))
}

// Reads LOG_N R P, and also returns the words after them. The recommended parameters have no words.
#[tactic(auto, unfolding(crate::specs::Command::params_words))]
fn params_words<'a>(is_recommended: bool, words: &'a [String]) -> Read<'a, UncheckedParams>
    ensures { Gives (before_words (λ params. params)) (params_words is_recommended (texts_of words.now)) result }
{
    if is_recommended {
        return Ok((RECOMMENDED, words));
    }
    let (log_n, words) = first_word(words)?;
    let (r, words) = first_word(words)?;
    let (p, words) = first_word(words)?;
    let params = UncheckedParams {
        log_n: read_u8(log_n).ok_or(CliError::Usage)?,
        r: read_u32(r).ok_or(CliError::Usage)?,
        p: read_u32(p).ok_or(CliError::Usage)?,
    };
    Ok((params, words))
}

// Reads phc|mcf, and also returns the words after it.
#[tactic(auto, using(crate::proofs::CommandFacts::other), unfolding(crate::specs::Command::format_word))]
fn format_word<'a>(words: &'a [String]) -> Read<'a, Format>
    ensures { Gives (before_words (λ format. format)) (format_word (texts_of words.now)) result }
{
    let (name, words) = first_word(words)?;
    match name {
        "phc" => Ok((Format::Phc, words)),
        "mcf" => Ok((Format::Mcf, words)),
        _ => Err(CliError::Usage),
    }
}

// Reads SALT_HEX, and also returns the words after it. A drawn salt has no word.
#[tactic(auto, unfolding(crate::specs::Command::salt_word))]
fn salt_word<'a>(drawn: Option<[u8; 16]>, words: &'a [String]) -> Read<'a, Salt<'a>>
    ensures { Gives (before_words salt_of) (salt_word drawn (texts_of words.now)) result }
{
    if let Some(salt) = drawn {
        return Ok((Salt::Drawn(salt), words));
    }
    let (digits, words) = first_word(words)?;
    Ok((Salt::Digits(digits), words))
}

// Reads HASH, and also returns the words after it. The text of a file has no word.
fn hash_word<'a>(file_text: Option<&'a str>, words: &'a [String]) -> Read<'a, &'a str>
    ensures { Gives (before_words (λ text. text.now))
        (hash_word (option_copied file_text.entry) (texts_of words.now)) result }
{
    match file_text {
        Some(text) => Ok((text, words)),
        None => first_word(words),
    }
}

// Reads LEN, and also returns the words after it.
#[tactic(auto, unfolding(crate::specs::Command::len_word))]
fn len_word<'a>(words: &'a [String]) -> Read<'a, usize>
    ensures { Gives (before_words (λ len. len)) (len_word (texts_of words.now)) result }
{
    let (len, words) = first_word(words)?;
    Ok((read_usize(len).ok_or(CliError::Usage)?, words))
}

// Reads LEN if it is given. It must be the last word.
#[tactic(auto, unfolding(crate::specs::Command::optional_len))]
fn optional_len(words: &[String]) -> Result<Option<usize>>
    ensures { Gives (λ len. len) (optional_len (texts_of words.now)) result }
{
    if words.is_empty() {
        return Ok(None);
    }
    let (len, words) = len_word(words)?;
    end_of(words)?;
    Ok(Some(len))
}

// Returns the first word, and the words after it.
fn first_word<'a>(words: &'a [String]) -> Read<'a, &'a str>
    ensures first { Gives (before_words (λ text. text.now)) (first_word (texts_of words.now)) result }
{
    match words.split_first() {
        Some((word, words)) => Ok((word.as_str(), words)),
        None => Err(CliError::Usage),
    }
}

// Rejects words after the last one.
fn end_of(words: &[String]) -> Result<()>
    ensures { Gives (λ done. done) (end_of (texts_of words.now)) result }
{
    if words.is_empty() {
        return Ok(());
    }
    Err(CliError::Usage)
}

// Reads the salt, and then checks the parameters.
#[tactic(auto, unfolding(crate::specs::Command::making_of))]
fn making_of(
    alloc: Global,
    target: Target,
    unchecked: UncheckedParams,
    key_len: Option<usize>,
    salt: Salt<'_>,
) -> Result<Making>
    ensures { Gives making_view (making_of target unchecked key_len (salt_of salt.entry)) result }
{
    let salt = read_salt(alloc, salt)?;
    let Some(params) = checked_params(unchecked, key_len) else {
        return Err(CliError::InvalidParams);
    };
    Ok(Making {
        target,
        params,
        salt,
    })
}

// Returns the parameters, with the key length if one is given for a hash, if they are accepted.
#[tactic(auto, using(std::proofs::lemmas::Bool::Decides::nat_tests), unfolding(crate::specs::Command::checked_params, scrypt::specs::Accepted::is_stored_len))]
fn checked_params(unchecked: UncheckedParams, key_len: Option<usize>) -> Option<Params>
    ensures { result ≡ checked_params unchecked key_len }
{
    let UncheckedParams { log_n, r, p } = unchecked;
    match key_len {
        Some(len) => Params::new_with_output_len(log_n, r, p, len).ok(),
        None => Params::new(log_n, r, p).ok(),
    }
}

// Returns the bytes of the salt. SALT_HEX is an even number of hexadecimal digits of either case.
#[tactic(auto, using(crate::proofs::CommandFacts::decoded))]
fn read_salt(alloc: Global, salt: Salt<'_>) -> Result<Vec<u8>>
    ensures { Gives (λ salt. salt.items) (salt_of salt.entry) result }
{
    match salt {
        Salt::Digits(digits) => {
            let mut salt = vec![in alloc; 0u8; digits.len() / 2]?;
            match hex::decode_to_slice(digits, &mut salt) {
                Ok(()) => Ok(salt),
                Err(_) => Err(CliError::SaltNotHex),
            }
        }
        Salt::Drawn(salt) => Ok(salt.to_vec(alloc)?),
    }
}
