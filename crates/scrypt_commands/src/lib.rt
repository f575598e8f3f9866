//! The commands of `scrypt_tool`: parses its arguments and prints the answers, over any input and
//! outputs. It has no `main` and opens no streams: the crate `scrypt_tool` does.
#![tactic(auto)]

mod answer;
mod command;
mod command_line;
mod error;
pub mod invocation;
pub mod laws;
mod limit_options;
mod options;
mod progress;
pub mod run;
mod usage;
