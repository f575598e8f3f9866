//! Password hashing: traits, errors, and the texts of PHC and modular crypt hashes.
//!
//! It derives no keys and makes no hashes: the crate `scrypt` does so, through these traits.
#![tactic(auto)]

// Hidden items are only for the crates of this repository.
#[doc(hidden)]
pub mod decimal;
mod error;
pub mod kdf;
pub mod laws;
mod letters;
pub mod mcf;
mod parts;
pub mod phc;
mod traits;

pub use error::{Error, Result, Version};
pub use traits::{CustomizedPasswordHasher, PasswordHasher, PasswordVerifier, RehashCheck};
