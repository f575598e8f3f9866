//! Examples of the library, with contracts as its users would write them: the calls that README
//! shows, and calls that combine several contracts.
//!
//! They are proved only from the library's public clauses, including its laws. So if a clause
//! becomes weaker, the proof of each example that needs it fails. They are there to be copied, not
//! to depend on.
#![tactic(auto)]

pub mod account;
pub mod bounded_login;
pub mod hash;
pub mod key_file;
pub mod login;
