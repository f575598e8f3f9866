//! The C interface: a static library over the crate `scrypt`.
//!
//! It is not meant for callers in Rattle, and it trusts the pointers and the lengths that it is
//! passed. Each call returns a status: 0 on success, otherwise an error code. A slice is a pointer
//! and a length in C.
#![tactic(auto)]

pub mod cost;
pub mod hashes;
pub mod in_steps;
pub mod keys;
pub mod laws;
pub mod logins;
pub mod statuses;
pub mod stored_text;
mod texts;
pub mod verify_in_steps;
pub mod with_buffers;
