//! The steps of a derivation one by one, in the caller's buffers:
//! [`scrypt_in_steps`](crate::scrypt_in_steps) takes them all.

pub use crate::stepping::{begin, finish, is_within, step};
