// The answer to a command.

ghost use Rattle.std.specs.Prelude.{◌≡◌, IsErrOf, OnOk, length, option_map, string_bytes};
ghost use Rattle.scrypt.specs.Terms.{IsVerdict, OutOfMemory as Refused, key_by, reading, verdict};
ghost use Rattle.scrypt.specs.Terms.{with_limited_refusal};
ghost use Rattle.scrypt_commands.specs.{AreOfHash, AreOfRequest, Gives, bounded, limits_by, made_reply, making_view};
ghost use Rattle.scrypt_commands.specs.{new_hash, reply_to, reply_view, request_view, right_of, right_reply};
ghost use Rattle.scrypt_commands.specs.declared.command.Target.TheVariants.{Key};
ghost use Rattle.scrypt_commands.specs.declared.error.CliError.TheVariants.{OutOfMemory};

use crate::command::{Command, Format, Making, Target};
use crate::error::{CliError, Result};
use crate::invocation::Machine;
use crate::limit_options::LimitOptions;
use crate::progress::derive_shown;
use password_hash::Error;
use scrypt::{CoreCount, LimitedError, Limits, Params, StoredHash, mcf, phc, scrypt};
use std::alloc::Global;

/// The answer to a command.
#[derive(Drop)]
pub enum Answer {
    /// The password matches the hash.
    Right,
    /// The password does not match the hash.
    Wrong,
    /// A key or a hash was made from the password.
    Made(Vec<u8>),
}

impl Answer {
    /// Returns the exit status, which is 1 if the password is wrong, and the output line, with its
    /// newline if it has one.
    pub fn reply(&self) -> (u8, &[u8])
        ensures value { reply_view self.now ≡ record { status = result.0; line = result.1.now } }
    {
        match self {
            Answer::Right => (0, b"ok\n"),
            Answer::Wrong => (1, b"no\n"),
            Answer::Made(line) => (0, line.as_slice()),
        }
    }
}

impl<'a> Command<'a> {
    /// Carries out the command on this password. A hash is verified only within limits, if options
    /// set any.
    ///
    /// Returns the error of hashing or verifying, including `TooCostly` or `KeyTooShort` if a hash
    /// exceeds the limits, and `OutOfMemory` if an allocation fails. `cores` counts the cores of
    /// verifying, and the blocks that SHA-256 compresses: none if the hash cannot be read or
    /// exceeds the limits. The progress of a key is shown by the machine, if one is given.
    pub fn answer<M: Machine>(
        &self,
        alloc: Global,
        shown_by: Option<&M>,
        password: &[u8],
        options: Option<LimitOptions>,
        cores: &mut CoreCount,
    ) -> Result<Answer>
        ensures reply { Gives reply_view (reply_to options (request_view self.now) password.now) result }
        ensures cores { AreOfRequest options (request_view self.now) password.now
            (IsErrOf result OutOfMemory) cores.old cores.new }
    {
        match self {
            Command::Make(making) => make::<M>(alloc, shown_by, password, making),
            Command::Verify(hash, wanted) => {
                if !verify(alloc, hash, password, limits_by(options, wanted), cores)? {
                    return Ok(Answer::Wrong);
                }
                replace::<M>(alloc, shown_by, hash, password, wanted)
            }
        }
    }
}

// Returns the limits on a hash, if options set any.
fn limits_by(options: Option<LimitOptions>, wanted: &Option<Making>) -> Option<Limits>
    ensures { result ≡ limits_by options (option_map making_view wanted.now) }
{
    let options = options?;
    match wanted {
        Some(making) => Some(options.limits(Some(making.params))),
        None => Some(options.limits(None)),
    }
}

// Makes the wanted replacement of a hash from this password, if the hash is weaker than wanted.
fn replace<M: Machine>(
    alloc: Global,
    shown_by: Option<&M>,
    hash: &StoredHash<'_>,
    password: &[u8],
    wanted: &Option<Making>,
) -> Result<Answer>
    ensures { Gives reply_view
        (right_reply (option_map making_view wanted.now) (reading hash.now) password.now) result }
{
    match wanted {
        Some(making) if hash.needs_rehash(&making.params).unwrap_or(false) => {
            make::<M>(alloc, shown_by, password, making)
        }
        _ => Ok(Answer::Right),
    }
}

// Returns whether the password matches the hash. A hash that exceeds the limits is an error.
fn verify(
    alloc: Global,
    hash: &StoredHash<'_>,
    password: &[u8],
    limits: Option<Limits>,
    cores: &mut CoreCount,
) -> Result<bool>
    ensures right { Gives (λ right. right)
        (right_of limits (verdict password.now (bounded limits (reading hash.now)))) result }
    ensures cores { AreOfHash password.now (bounded limits (reading hash.now))
        (IsErrOf result OutOfMemory) cores.old cores.new }
{
    match verify_within(alloc, hash, password, limits, cores) {
        Ok(()) => Ok(true),
        Err(LimitedError::Hash(Error::PasswordInvalid)) => Ok(false),
        Err(why) => Err(CliError::of(why, limits.unwrap_or(Limits::DEFAULT))),
    }
}

// Verifies the password against the hash, if the hash is within the limits.
fn verify_within(
    alloc: Global,
    hash: &StoredHash<'_>,
    password: &[u8],
    limits: Option<Limits>,
    cores: &mut CoreCount,
) -> std::result::Result<(), LimitedError>
    ensures verdict { IsVerdict password.now (bounded limits (reading hash.now)) (with_limited_refusal result) }
    ensures cores { AreOfHash password.now (bounded limits (reading hash.now))
        (IsErrOf (with_limited_refusal result) Refused) cores.old cores.new }
{
    if let Some(limits) = limits {
        hash.within(&limits)?;
    }
    Ok(hash.verify_counted::<scrypt::Target>(alloc, password, cores)?)
}

// Makes a key or a hash from the password.
fn make<M: Machine>(
    alloc: Global,
    shown_by: Option<&M>,
    password: &[u8],
    making: &Making,
) -> Result<Answer>
    ensures { Gives reply_view (made_reply (making_view making.now) password.now) result }
{
    let (salt, params) = (&making.salt, &making.params);
    match making.target {
        Target::Key { len, is_raw } => {
            key::<M>(alloc, shown_by, password, salt, params, len, is_raw)
        }
        Target::Hash { format } => {
            let mut text = make_hash(alloc, password, salt, params, format)?;
            text.push('\n')?;
            Ok(Answer::Made(text.into_bytes()))
        }
    }
}

// Returns the text of the hash of this format.
#[tactic(auto, using(crate::proofs::OutcomeFacts::phc_refused))]
fn make_hash(
    alloc: Global,
    password: &[u8],
    salt: &[u8],
    params: &Params,
    format: Format,
) -> Result<String>
    ensures { Gives string_bytes (new_hash format params.now password.now salt.now) result }
{
    let cores = &mut CoreCount::new();
    match format {
        Format::Phc => {
            let hash = phc::hash::<scrypt::Target>(alloc, password, salt, params, cores)?;
            Ok(hash.to_string(alloc)?)
        }
        Format::Mcf => {
            let hash = mcf::hash::<scrypt::Target>(alloc, password, salt, params, cores)?;
            Ok(hash.into_string())
        }
    }
}

// Makes the derived key of `len` bytes.
fn key<M: Machine>(
    alloc: Global,
    shown_by: Option<&M>,
    password: &[u8],
    salt: &[u8],
    params: &Params,
    len: usize,
    is_raw: bool,
) -> Result<Answer>
    ensures { Gives reply_view (made_reply
        (record { target = Key len is_raw; params = params.now; salt = salt.now }) password.now) result }
{
    let mut key = vec![in alloc; 0u8; len]?;
    // The length is allowed, so this fails only if an allocation does.
    let derived = match shown_by {
        Some(machine) => derive_shown::<M>(alloc, machine, password, salt, params, &mut key),
        None => scrypt(alloc, password, salt, params, &mut key),
    };
    if derived.is_err() {
        return Err(CliError::OutOfMemory);
    }
    if is_raw {
        return Ok(Answer::Made(key));
    }
    let mut line = vec![in alloc; 0u8; 2 * key.len()]?;
    let _ = hex::encode_to_slice(key.as_slice(), &mut line);
    line.extend_from_slice(b"\n")?;
    Ok(Answer::Made(line))
}
