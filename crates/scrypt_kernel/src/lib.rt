//! The steps of scrypt (RFC 7914) below the derivation of a key, from source that is proved against
//! their definitions: HMAC, PBKDF2, the Salsa20/8 core, scryptBlockMix and scryptROMix.
//!
//! The crate `scrypt` re-exports the parts that users need. Nothing is checked at run time: lengths
//! and parameters are preconditions. The definitions that the preconditions and postconditions cite
//! are in `specs/`, one file for each section of a standard.
#![tactic(auto)]

pub mod block_mix;
mod cores;
pub mod hmac;
pub mod memory;
pub mod order;
pub mod parts;
pub mod pbkdf2;
pub mod romix;
pub mod salsa;
pub mod steps;
mod table;
mod walk;
mod words;

pub use cores::CoreCount;
