//! The errors of making, parsing and verifying password hashes.
ghost use Rattle.std.specs.Prelude.{None};

use std::alloc::AllocError;
use std::fmt;

/// The version of an algorithm.
pub type Version = u32;

/// The result type of this crate.
pub type Result<T> = std::result::Result<T, Error>;

/// An error from making, parsing or verifying a password hash.
#[derive(Clone, Copy, Debug, PartialEq, Eq)]
pub enum Error {
    /// The algorithm is not supported.
    Algorithm,
    /// The text is not in the expected format.
    EncodingInvalid,
    /// The length of the key is out of range.
    OutputSize,
    /// The value of the named parameter is invalid.
    ParamInvalid {
        /// The name of the parameter.
        name: &'static str,
    },
    /// The parameters as a whole are invalid.
    ParamsInvalid,
    /// The password does not match the hash.
    PasswordInvalid,
    /// The length of the salt is out of range.
    SaltInvalid,
    /// The version of the algorithm is not supported.
    Version,
    /// An allocation failed.
    OutOfMemory,
}

impl fmt::Display for Error {
    ghost output = { λ _. None };

    fn fmt<W: fmt::Write>(&self, f: &mut fmt::Formatter<W>) -> fmt::Result {
        match self {
            Error::Algorithm => f.write_str("unsupported algorithm"),
            Error::EncodingInvalid => f.write_str("invalid encoding"),
            Error::OutputSize => f.write_str("invalid key length"),
            Error::ParamInvalid { name } => write!(f, "invalid parameter {name}"),
            Error::ParamsInvalid => f.write_str("invalid parameters"),
            Error::PasswordInvalid => f.write_str("wrong password"),
            Error::SaltInvalid => f.write_str("invalid salt length"),
            Error::Version => f.write_str("unsupported version"),
            Error::OutOfMemory => f.write_str("out of memory"),
        }
    }
}

impl std::error::Error for Error {}

impl From<AllocError> for Error {
    ghost use Rattle.std.specs.Prelude.{◌≡◌};
    ghost use Rattle.password_hash.specs.declared.error.Error.TheVariants.{OutOfMemory};

    ghost from_gives = { λ _ e. e ≡ OutOfMemory };

    fn from(_e: AllocError) -> Error {
        Error::OutOfMemory
    }
}
