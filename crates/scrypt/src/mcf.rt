//! Password hashes in the `$7$` form of crypt(5).

mod five_letters;
mod hashing;
mod params;
pub(crate) mod reading;

pub use five_letters::{decode64_uint32, encode64_uint32};
pub use hashing::{hash, hash_len, hash_with_buffers, write_hash_of_key};
pub use params::decode_params_and_salt;
pub use password_hash::mcf::{PasswordHash, PasswordHashRef};
