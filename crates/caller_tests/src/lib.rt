//! Tests of the commands, over streams that fail at each call, and by a caller whose contract
//! relies on the contract of a run; and of the examples.
#![tactic(auto)]

#[cfg(test)]
mod examples;
pub mod program;
#[cfg(test)]
mod streams;

#[cfg(test)]
use std::test::Fail;

// Fails a test with this text unless it holds. An `assert!` would be proved where it is, with
// everything that the test knows there, which is slow.
#[cfg(test)]
fn holds(is_so: bool, text: &'static str) -> Result<(), Fail> {
    if is_so { Ok(()) } else { Err(text.into()) }
}
