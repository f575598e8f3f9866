//! Iteration over the parameters of a hash.
ghost use Rattle.std.specs.Prelude.{◌≡◌, ◌<◌, ◌==◌};
ghost use Rattle.std.specs.Iterator.{YieldsFirstBy, item_count};
ghost use Rattle.std.specs.List.{before_first, after_first};
ghost use Rattle.password_hash.specs.Value.{item_pair};

use crate::parts::first_piece;
use crate::phc::{Ident, Value};
use std::marker::Model;

/// An iterator over the names and values of a `ParamsString`, in order.
#[derive(Drop)]
pub struct Pairs<'a> {
    /// The text after the next `,`, or `None` after the last pair.
    pub(super) left: Option<&'a str>,
}

impl<'a> Model for Pairs<'a> {
    ghost use Rattle.std.specs.Prelude.{ℕ, List, All, IsTrue};
    ghost use Rattle.password_hash.specs.{is_identifier, pairs_left};

    ghost Value = { List (List ℕ × List ℕ) };

    ghost view = { λ a. pairs_left a.left };

    ghost invariant = { λ a. All (λ pair. IsTrue (is_identifier pair.0)) (pairs_left a.left) };
}

impl<'a> Iterator for Pairs<'a> {
    type Item = (Ident, Value<'a>);

    ghost next_gives = { YieldsFirstBy item_pair (λ left. left) };

    ghost remaining = { item_count (λ left. left) };

    fn next(&mut self) -> Option<(Ident, Value<'a>)> {
        let (pair, left) = first_piece(self.left?, ',');
        let (name, text) = cut(pair, '=');
        self.left = left;
        // The names of parameters are identifiers.
        let Ok(name) = Ident::new(name) else {
            unreachable!();
        };
        Some((name, Value { text }))
    }
}

/// Returns the text before the first separator, and the text after it. Without a separator these
/// are the whole text and an empty text.
pub(super) fn cut(text: &str, separator: char) -> (&str, &str)
    requires { separator < 128 }
    ensures before { result.0.now ≡ before_first (λ b. b == separator) text.now }
    ensures after { result.1.now ≡ after_first (λ b. b == separator) text.now }
{
    match text.split_once(separator) {
        Some(parts) => parts,
        None => (text, ""),
    }
}
