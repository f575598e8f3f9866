//! Texts in the modular crypt format (MCF) of crypt(5), such as `$7$..`, and the Base64 of their
//! fields.

#[doc(hidden)]
pub mod alphabet;
mod crypt64;
mod error;
mod fields;
mod group;
mod hash;
mod hash_ref;
mod letters;

pub use crypt64::Base64;
pub use error::{Error, Result};
pub use fields::{Field, Fields};
pub use hash::PasswordHash;
pub use hash_ref::PasswordHashRef;
