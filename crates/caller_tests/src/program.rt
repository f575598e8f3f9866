//! The program, over an input and outputs in memory.

ghost use Rattle.std.specs.Prelude.{◌≡◌, ◌⊎◌, [], true};
ghost use Rattle.scrypt_commands.specs.Options.{texts_of};
ghost use Rattle.scrypt_commands.specs.Run.{IsAnswer, plan_of_words};

use scrypt_commands::run::run;
use std::alloc::Global;

/// Runs the program on these words, without options, and this password. Returns its status and its
/// output, without its error line.
///
/// The status is 3 or 4 if an allocation fails: 4 if it is an allocation for the output.
pub fn printed(alloc: Global, words: &[String], password: &[u8]) -> (u8, Vec<u8>)
    ensures answer { IsAnswer result.0 → let outcome = (plan_of_words (texts_of words.now)).outcome_on password.now in
        (result.0 ≡ outcome.status) × (result.1.items ≡ outcome.line) }
    ensures refused { result.0 ≡ 2 → (result.0 ≡ ((plan_of_words (texts_of words.now)).outcome_on password.now).status)
        × (result.1.items ≡ []) }
    ensures unread { (plan_of_words (texts_of words.now)).is_unread ≡ true → (result.0 ≡ 2) ⊎ (result.0 ≡ 3) }
{
    let mut input = password;
    let mut output = Vec::new(alloc);
    let mut faults = Vec::new(alloc);
    let ended = run(alloc, words, &mut input, &mut output, &mut faults);
    (ended.status, output)
}
