//! The scrypt key derivation function (RFC 7914) and its password hashes, from source that is
//! proved against their definitions.
//!
//! It draws no salts and starts no threads. Only calls with [`Limits`] limit the cost of a stored
//! hash. The definitions that the contracts cite are in `specs/`, one file for each section of a
//! standard.
#![tactic(auto)]

mod algorithm;
mod backends;
mod buffers;
mod comparing;
mod decoy;
mod derivation;
pub mod errors;
mod hashing;
pub mod laws;
mod limits;
mod logins;
pub mod mcf;
mod params;
pub mod phc;
mod size;
mod stepping;
pub mod steps;
mod stored_hash;
mod stored_parts;
mod texts;
mod verifying;

pub use algorithm::Scrypt;
pub use backends::{Backend, Scalar, Simd, Simd as Target, SimdPairs};
pub use buffers::lens::BufferLens;
pub use buffers::{Buffers, wipe};
pub use decoy::Decoy;
pub use derivation::{
    output_len_ok, scrypt, scrypt_counted, scrypt_thin, scrypt_with_buffers, scrypt_with_max_mem,
};
pub use errors::{DeriveError, InvalidOutputLen, InvalidParams, LimitedError, StepsError};
pub use limits::Limits;
pub use logins::{Login, LoginHash, verify_logins};
pub use params::Params;
pub use password_hash;
pub use password_hash::kdf;
pub use password_hash::kdf::{Kdf, Pbkdf};
pub use scrypt_kernel::{CoreCount, block_mix, hmac, salsa};
pub use size::Size;
pub use stepping::{Progress, scrypt_in_steps};
pub use stored_hash::StoredHash;
pub use texts::hash_text;

/// PBKDF2 with HMAC-SHA-256 and one iteration (RFC 8018).
pub mod pbkdf2 {
    pub use scrypt_kernel::pbkdf2::pbkdf2_one;
}

/// scryptROMix (RFC 7914, section 5).
pub mod romix {
    pub use scrypt_kernel::romix::{
        integerify_diagonal, integerify_plain, plain_ro_mix, scrypt_ro_mix, thin_ro_mix,
    };
}
