//! The errors of a derivation, of its parameters and of verifying within limits.

ghost use Rattle.std.specs.Prelude.{◌≡◌, Some, codes};
ghost use Rattle.scrypt.specs.ErrorText.{derive_error_text, limited_error_text, steps_error_text};
ghost use Rattle.password_hash.specs.declared.kdf.Error.TheVariants.{Refused};
ghost use Rattle.scrypt.specs.declared.errors.LimitedError.TheVariants.{Hash};
ghost use Rattle.scrypt.specs.declared.errors.DeriveError.TheVariants.{InvalidOutputLen as BadLength, OutOfMemory};
ghost use Rattle.scrypt.specs.declared.errors.StepsError.TheVariants.{InvalidOutputLen as BadStepsLength};

use password_hash::kdf;
use std::alloc::AllocError;
use std::error::Error;
use std::fmt;

/// The output is empty, or has more than 137438953440 bytes (RFC 7914, section 6: `dkLen`).
#[derive(Clone, Copy, Debug, PartialEq, Eq)]
pub struct InvalidOutputLen;

impl fmt::Display for InvalidOutputLen {
    ghost output = { λ _. Some (codes "invalid output buffer length") };

    fn fmt<W: fmt::Write>(&self, f: &mut fmt::Formatter<W>) -> fmt::Result {
        f.write_str("invalid output buffer length")
    }
}

impl Error for InvalidOutputLen {}

/// The parameters are not accepted, or the length of a stored key is not 10 to 64 bytes.
#[derive(Clone, Copy, Debug, PartialEq, Eq)]
pub struct InvalidParams;

impl fmt::Display for InvalidParams {
    ghost output = { λ _. Some (codes "invalid scrypt parameters") };

    fn fmt<W: fmt::Write>(&self, f: &mut fmt::Formatter<W>) -> fmt::Result {
        f.write_str("invalid scrypt parameters")
    }
}

impl Error for InvalidParams {}

/// An error from deriving a key.
#[derive(Clone, Copy, Debug, PartialEq, Eq)]
pub enum DeriveError {
    /// The output is empty, or has more than 137438953440 bytes.
    InvalidOutputLen,
    /// An allocation failed.
    OutOfMemory,
}

impl fmt::Display for DeriveError {
    ghost output = { λ e. Some (derive_error_text e) };

    fn fmt<W: fmt::Write>(&self, f: &mut fmt::Formatter<W>) -> fmt::Result {
        match self {
            DeriveError::InvalidOutputLen => write!(f, "{InvalidOutputLen}"),
            DeriveError::OutOfMemory => f.write_str("out of memory"),
        }
    }
}

impl Error for DeriveError {}

impl From<InvalidOutputLen> for DeriveError {
    ghost from_gives = { λ _ e. e ≡ BadLength };

    fn from(_error: InvalidOutputLen) -> DeriveError {
        DeriveError::InvalidOutputLen
    }
}

impl From<AllocError> for DeriveError {
    ghost from_gives = { λ _ e. e ≡ OutOfMemory };

    fn from(_error: AllocError) -> DeriveError {
        DeriveError::OutOfMemory
    }
}

impl From<InvalidOutputLen> for kdf::Error {
    ghost from_gives = { λ _ e. e ≡ Refused };

    fn from(_error: InvalidOutputLen) -> kdf::Error {
        kdf::Error::Refused
    }
}

/// An error from a derivation in steps.
#[derive(Clone, Copy, Debug, PartialEq, Eq)]
pub enum StepsError {
    /// The output is empty, or has more than 137438953440 bytes.
    InvalidOutputLen,
    /// The caller's function returned `false`.
    Cancelled,
}

impl fmt::Display for StepsError {
    ghost output = { λ e. Some (steps_error_text e) };

    fn fmt<W: fmt::Write>(&self, f: &mut fmt::Formatter<W>) -> fmt::Result {
        match self {
            StepsError::InvalidOutputLen => write!(f, "{InvalidOutputLen}"),
            StepsError::Cancelled => f.write_str("the derivation was cancelled"),
        }
    }
}

impl Error for StepsError {}

impl From<InvalidOutputLen> for StepsError {
    ghost from_gives = { λ _ e. e ≡ BadStepsLength };

    fn from(_error: InvalidOutputLen) -> StepsError {
        StepsError::InvalidOutputLen
    }
}

/// An error from a call with [`Limits`](crate::Limits), with the cost of the hash, or from a call in
/// the caller's buffers.
#[derive(Clone, Copy, Debug, PartialEq, Eq)]
pub enum LimitedError {
    /// An error from reading, verifying or making the hash.
    Hash(password_hash::Error),
    /// The hash can be read, and its parameters exceed the limit on memory or the limit on work.
    TooCostly {
        /// The size of the three buffers in bytes, as [`Limits::max_mem`](crate::Limits) limits it.
        bytes: u128,
        /// The work, as [`Params::work`](crate::Params::work) returns it.
        work: u128,
    },
    /// The hash can be read and its parameters are within the limits, but its key is shorter than
    /// the limits allow.
    KeyTooShort {
        /// The length of the key in bytes.
        key_len: usize,
    },
    /// A buffer of the caller is too short.
    BufferTooShort,
}

impl fmt::Display for LimitedError {
    ghost output = { λ e. limited_error_text e };

    fn fmt<W: fmt::Write>(&self, f: &mut fmt::Formatter<W>) -> fmt::Result {
        match self {
            LimitedError::Hash(error) => write!(f, "{error}"),
            LimitedError::TooCostly { .. } => f.write_str(
                "the parameters need more than is allowed",
            ),
            LimitedError::KeyTooShort { .. } => f.write_str("the key is shorter than is allowed"),
            LimitedError::BufferTooShort => f.write_str("a buffer is too short"),
        }
    }
}

impl Error for LimitedError {}

impl From<password_hash::Error> for LimitedError {
    ghost from_gives = { λ error e. e ≡ Hash error };

    fn from(error: password_hash::Error) -> LimitedError {
        LimitedError::Hash(error)
    }
}
