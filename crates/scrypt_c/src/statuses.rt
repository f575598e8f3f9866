//! The statuses that the calls return.

ghost use Rattle.std.specs.Prelude.{◌≡◌};
ghost use Rattle.scrypt.specs.Terms.{limited_refusal, refusal, with_limited_refusal, with_refusal};
ghost use Rattle.scrypt_c.specs.{refusal_status, result_status, unread_status};

use password_hash::{Error, Result};
use scrypt::LimitedError;

/// The call succeeded; from `scrypt_verify_limited`: the password has the same key as the hash.
pub const OK: i32 = 0;

/// `scrypt_verify_limited`: the password has another key than the hash, or the hash has no salt or
/// no key.
pub const MISMATCH: i32 = 1;

/// `scrypt_needs_rehash`: the hash is weaker than wanted, or has no salt or no key.
pub const NEEDS_REHASH: i32 = 2;

/// `log_n`, `r` and `p`, or the length of a key, are not accepted.
pub const INVALID_PARAMS: i32 = 3;

/// The output is empty, or longer than 137438953440 bytes.
pub const INVALID_OUTPUT_LEN: i32 = 4;

/// An allocation failed.
pub const OUT_OF_MEMORY: i32 = 5;

/// The hash names another algorithm.
pub const ALGORITHM: i32 = 6;

/// The text does not have the grammar of its format.
pub const ENCODING_INVALID: i32 = 7;

/// The key in the text has a length that is not allowed.
pub const OUTPUT_SIZE: i32 = 8;

/// A parameter in the text is not a decimal in its range.
pub const HASH_PARAM_INVALID: i32 = 9;

/// The parameters in the text are not accepted, or are not scrypt's.
pub const HASH_PARAMS_INVALID: i32 = 10;

/// The hash has a version field; scrypt hashes have no version.
pub const VERSION: i32 = 11;

/// The salt is not one that the format allows.
pub const SALT_INVALID: i32 = 12;

/// A buffer has the wrong length, or the text does not fit its buffer.
pub const BUFFER_SIZE: i32 = 13;

/// The parameters exceed the limit on memory or the limit on work.
pub const TOO_COSTLY: i32 = 14;

/// The key is shorter than the limits allow.
pub const KEY_TOO_SHORT: i32 = 15;

/// `scrypt_key_finish`: not all chunks are mixed.
pub const UNFINISHED: i32 = 21;

/// `scrypt_key_step`: the progress is impossible for a key with these parameters.
pub const INVALID_PROGRESS: i32 = 22;

// Clauses use the names of the statuses; callers in C see their numbers.
const _: () = prove!(OK == 0 && MISMATCH == 1 && NEEDS_REHASH == 2);

const _: () = prove!(INVALID_PARAMS == 3 && INVALID_OUTPUT_LEN == 4 && OUT_OF_MEMORY == 5);

const _: () = prove!(ALGORITHM == 6 && ENCODING_INVALID == 7 && OUTPUT_SIZE == 8);

const _: () = prove!(HASH_PARAM_INVALID == 9 && HASH_PARAMS_INVALID == 10 && VERSION == 11);

const _: () = prove!(SALT_INVALID == 12 && BUFFER_SIZE == 13 && TOO_COSTLY == 14);

const _: () = prove!(KEY_TOO_SHORT == 15 && UNFINISHED == 21 && INVALID_PROGRESS == 22);

// Returns the status of an error.
pub(crate) fn status_of(error: Error) -> i32
    ensures { result ≡ refusal_status (refusal error) }
{
    match error {
        Error::PasswordInvalid => MISMATCH,
        Error::OutOfMemory => OUT_OF_MEMORY,
        Error::Algorithm => ALGORITHM,
        Error::EncodingInvalid => ENCODING_INVALID,
        Error::OutputSize => OUTPUT_SIZE,
        Error::ParamInvalid { .. } => HASH_PARAM_INVALID,
        Error::ParamsInvalid => HASH_PARAMS_INVALID,
        Error::Version => VERSION,
        Error::SaltInvalid => SALT_INVALID,
    }
}

// Returns the status of an error of reading a hash, which is damaged if it has no salt or no key.
pub(crate) fn unread_status_of(error: Error) -> i32
    ensures { result ≡ unread_status (refusal error) }
{
    match error {
        Error::PasswordInvalid => OUTPUT_SIZE,
        error => status_of(error),
    }
}

// Returns the status of an error of a call with limits or in the caller's buffers.
pub(crate) fn limited_status_of(error: LimitedError) -> i32
    ensures { result ≡ refusal_status (limited_refusal error) }
{
    match error {
        LimitedError::Hash(error) => status_of(error),
        LimitedError::TooCostly { .. } => TOO_COSTLY,
        LimitedError::KeyTooShort { .. } => KEY_TOO_SHORT,
        LimitedError::BufferTooShort => BUFFER_SIZE,
    }
}

// Returns the status of a verdict.
pub(crate) fn verdict_status(verdict: Result<()>) -> i32
    ensures { result ≡ result_status (with_refusal verdict) }
{
    match verdict {
        Ok(()) => OK,
        Err(error) => status_of(error),
    }
}

// Returns the status of a verdict in the caller's buffers.
pub(crate) fn limited_verdict_status(verdict: std::result::Result<(), LimitedError>) -> i32
    ensures { result ≡ result_status (with_limited_refusal verdict) }
{
    match verdict {
        Ok(()) => OK,
        Err(error) => limited_status_of(error),
    }
}
