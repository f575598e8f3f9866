//! Password hashes in the PHC string format.

mod hashing;
mod params;
pub(crate) mod reading;

pub use hashing::{hash, hash_len, hash_of_key, hash_with_buffers};
pub use password_hash::phc::{Ident, Output, PasswordHash, Salt};

/// The name of the algorithm in a PHC string.
pub const ALG_ID: Ident = Ident::SCRYPT;
