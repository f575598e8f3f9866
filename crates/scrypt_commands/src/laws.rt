//! Laws of the definitions. Each function does nothing at run time: its contract is the law.

ghost use Rattle.std.specs.Prelude.{◌≡◌, ℕ, List, None};
ghost use Rattle.scrypt_commands.specs.{invocation_of, no_options, options_of, plan_of, plan_of_words, text_of_words};

/// If the first word is not an option, and the words do not ask for a text about the program, their
/// invocation does what `run` does with them: it has the same outcome on each input, and is
/// rejected without reading the input in the same cases.
#[tactic(auto, using(crate::proofs::OutcomeFacts::without_options))]
pub fn run_has_no_options()
    ensures same { (salt : List ℕ) (words : List (List ℕ)) → text_of_words words ≡ None
        → options_of words ≡ (no_options, words) → plan_of salt None (invocation_of words) ≡ plan_of_words words }
{}
