//! The errors of MCF strings and of their Base64.

ghost use Rattle.std.specs.Prelude.{None};

use std::alloc::AllocError;
use std::fmt;

/// The result type of this module.
pub type Result<T> = std::result::Result<T, Error>;

/// An error from making, parsing, extending or decoding an MCF string.
#[derive(Clone, Copy, Debug, PartialEq, Eq)]
pub enum Error {
    /// The text is not in the expected format.
    EncodingInvalid,
    /// An allocation failed.
    OutOfMemory,
}

impl fmt::Display for Error {
    ghost output = { λ _. None };

    fn fmt<W: fmt::Write>(&self, f: &mut fmt::Formatter<W>) -> fmt::Result {
        match self {
            Error::EncodingInvalid => f.write_str("invalid encoding"),
            Error::OutOfMemory => f.write_str("out of memory"),
        }
    }
}

impl std::error::Error for Error {}

impl From<AllocError> for Error {
    ghost use Rattle.std.specs.Prelude.{◌≡◌};
    ghost use Rattle.password_hash.specs.declared.mcf.error.Error.TheVariants.{OutOfMemory};

    ghost from_gives = { λ _ e. e ≡ OutOfMemory };

    fn from(_e: AllocError) -> Error {
        Error::OutOfMemory
    }
}
