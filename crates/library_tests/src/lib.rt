//! Tests of the libraries for what no contract can state: that the compiled code computes the
//! standards' keys; that calls succeed if memory is available, also on texts at the limits of each
//! format and at large sizes; how much each call allocates, and the effect of a failed allocation.
//! `tools/tests/program.py` asks the linked program for the keys of RFC 7914, and which texts it
//! verifies.
//!
//! A function that returns no error does exactly what its contract states, and its definition is
//! evaluated on vectors of the standards in `proofs/StandardFacts.antt` of its crate. The tables here
//! run the compiled code on others, and on texts at the limits of each format.
#![tactic(auto)]

#[cfg(test)]
mod buffers;
#[cfg(test)]
mod derivation_allocations;
#[cfg(test)]
mod failing_allocations;
#[cfg(test)]
mod hash_allocations;
#[cfg(test)]
mod hashes;
#[cfg(test)]
mod hostile;
#[cfg(test)]
mod keys;
#[cfg(test)]
mod lanes;
#[cfg(test)]
mod laws;
#[cfg(test)]
mod logins;
#[cfg(test)]
mod mcf_texts;
#[cfg(test)]
mod memory;
#[cfg(test)]
mod parameters;
#[cfg(test)]
mod phc_texts;
#[cfg(test)]
mod romix;
#[cfg(test)]
mod verdicts;

#[cfg(test)]
use std::test::Fail;

// Fails a test with this text unless it holds. An `assert!` would be proved where it is, with
// everything that the test knows there: a table of eight rows took twice as long to prove.
#[cfg(test)]
fn holds(is_so: bool, text: &'static str) -> Result<(), Fail> {
    if is_so { Ok(()) } else { Err(text.into()) }
}

// Whether two texts are equal. `==` on texts is proved again in each function that has it.
#[cfg(test)]
fn is(made: &str, wanted: &str) -> bool {
    made == wanted
}
