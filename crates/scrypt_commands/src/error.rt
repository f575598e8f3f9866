// The errors that end a run without an answer.

ghost use Rattle.std.specs.Prelude.{◌≡◌, OnOk};
ghost use Rattle.std.specs.Io.KnownBytes.{Appends};
ghost use Rattle.scrypt.specs.Terms.{limited_refusal, refusal};
ghost use Rattle.scrypt_commands.specs.{error_line, error_of, fixed_line, hash_error, limited_line, refused_line, status_of};
ghost use Rattle.scrypt_commands.specs.declared.error.CliError.TheVariants.{OutOfMemory};

use crate::usage::USAGE;
use password_hash::Error;
use scrypt::{LimitedError, Limits};
use std::alloc::AllocError;
use std::io;
use std::io::Write;

/// A value, or an error that ends the run.
pub type Result<T> = std::result::Result<T, CliError>;

/// An error that ends a run without an answer.
#[derive(Clone, Copy)]
pub enum CliError {
    /// The words are not a command, an option does not fit it, or one of them is not a decimal
    /// below its bound.
    Usage,
    /// The salt is not an even number of hexadecimal digits.
    SaltNotHex,
    /// The parameters are not accepted.
    InvalidParams,
    /// LEN is 0, or above 32 * (2^32 - 1).
    InvalidOutputLen,
    /// The library rejects a hash, or the salt of a new one. The limits are those that the hash
    /// exceeds, if it does.
    Refused(LimitedError, Limits),
    /// An allocation failed.
    OutOfMemory,
    /// The input could not be read to its end.
    InputFailed,
    /// The output line could not be written or flushed.
    OutputFailed,
}

impl CliError {
    /// Returns the error that reports this library error, from a call with these limits.
    pub fn of(why: LimitedError, limits: Limits) -> CliError
        ensures value { result ≡ error_of limits why }
    {
        match why {
            LimitedError::Hash(Error::OutOfMemory) => CliError::OutOfMemory,
            _ => CliError::Refused(why, limits),
        }
    }

    /// Returns the exit status.
    pub fn status(self) -> u8
        ensures value { result ≡ status_of self }
    {
        match self {
            CliError::OutOfMemory => 3,
            CliError::InputFailed | CliError::OutputFailed => 4,
            _ => 2,
        }
    }

    /// Writes the error line, with its newline, with one `write_all` if it has no numbers.
    pub fn write_to<F: Write>(self, faults: &mut F) -> io::Result<()>
        ensures written { OnOk result (Appends (F.contents faults.old) (F.contents faults.new) (error_line self)) }
    {
        match self {
            CliError::Refused(why, limits) => write_refused(faults, why, limits),
            _ => faults.write_all(self.fixed_line()),
        }
    }

    // Returns the error line, with its newline, or no bytes for `Refused`.
    fn fixed_line(self) -> &'static [u8]
        ensures { result.now ≡ fixed_line self }
    {
        match self {
            CliError::Usage => USAGE,
            CliError::SaltNotHex => b"salt is not hexadecimal\n",
            CliError::InvalidParams => b"invalid scrypt parameters\n",
            CliError::InvalidOutputLen => b"invalid output buffer length\n",
            CliError::OutOfMemory => b"out of memory\n",
            CliError::InputFailed => b"input failed\n",
            CliError::OutputFailed => b"output failed\n",
            CliError::Refused(..) => b"",
        }
    }
}

// Writes the error line of `Refused`, with its newline, with one `write_all` if it has no numbers.
fn write_refused<F: Write>(faults: &mut F, why: LimitedError, limits: Limits) -> io::Result<()>
    ensures written { OnOk result (Appends (F.contents faults.old) (F.contents faults.new)
        (limited_line limits (limited_refusal why))) }
{
    let Limits {
        max_mem,
        max_work,
        min_key_len,
    } = limits;
    match why {
        LimitedError::Hash(why) => faults.write_all(refused_line(why)),
        LimitedError::TooCostly { bytes, work } => write!(
            faults,
            "hash refused: TooCostly, it needs {bytes} bytes and work {work}, and --max-mem is {max_mem} and --max-work {max_work}\n"
        ),
        LimitedError::KeyTooShort { key_len } => write!(
            faults,
            "hash refused: KeyTooShort, its key has {key_len} bytes, and --min-key-len is {min_key_len}\n"
        ),
        LimitedError::BufferTooShort => faults.write_all(b""),
    }
}

// Returns the error line of a rejected hash, with its newline: it names the error, and the
// parameter.
fn refused_line(why: Error) -> &'static [u8]
    ensures { result.now ≡ refused_line (refusal why) }
{
    match why {
        Error::Algorithm => b"hash refused: Algorithm\n",
        Error::EncodingInvalid => b"hash refused: EncodingInvalid\n",
        Error::OutputSize => b"hash refused: OutputSize\n",
        Error::ParamInvalid { name: "ln" } => b"hash refused: ParamInvalid ln\n",
        Error::ParamInvalid { name: "r" } => b"hash refused: ParamInvalid r\n",
        Error::ParamInvalid { .. } => b"hash refused: ParamInvalid p\n",
        Error::ParamsInvalid => b"hash refused: ParamsInvalid\n",
        Error::SaltInvalid => b"hash refused: SaltInvalid\n",
        Error::Version => b"hash refused: Version\n",
        Error::PasswordInvalid | Error::OutOfMemory => b"",
    }
}

impl From<AllocError> for CliError {
    ghost from_gives = { λ _ error. error ≡ OutOfMemory };

    fn from(_error: AllocError) -> CliError {
        CliError::OutOfMemory
    }
}

impl From<Error> for CliError {
    ghost from_gives = { λ why error. error ≡ hash_error why };

    fn from(why: Error) -> CliError {
        CliError::of(LimitedError::Hash(why), Limits::DEFAULT)
    }
}
