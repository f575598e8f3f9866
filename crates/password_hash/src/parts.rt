//! The parts of a text, separated by `$`.
ghost use Rattle.std.specs.Prelude.{◌≡◌, ◌≢◌, ◌<◌, ◌==◌, ℕ, List, [], ◌∷◌, MatchOption};
ghost use Rattle.std.specs.List.{list_any, slice_split};
ghost use Rattle.password_hash.specs.Parts.{dollar, parts_left, parts_of, pieces_left};

/// Returns the text before the first separator, which is ASCII, and the text after it, if there is
/// one.
pub(crate) fn first_piece(text: &str, separator: char) -> (&str, Option<&str>)
    requires { separator < 128 }
    ensures { slice_split (λ b. b == separator) text.now ≡ result.0.now ∷ pieces_left separator result.1 }
{
    match text.split_once(separator) {
        Some((piece, left)) => (piece, Some(left)),
        None => (text, None),
    }
}

/// Returns the first part after the `$` that a text begins with, and the text after the next `$`,
/// if there is one. Returns `None` if the text begins with anything else.
pub(crate) fn split_first(text: &str) -> Option<(&str, Option<&str>)>
    ensures { MatchOption result ((rest : List ℕ) → text.now ≢ dollar ∷ rest)
        (λ split. parts_of text.now ≡ [] ∷ split.0.now ∷ parts_left split.1) }
{
    let rest = text.strip_prefix('$')?;
    Some(first_piece(rest, '$'))
}

/// Returns whether `text` has this byte.
pub(crate) fn contains(text: &str, byte: u8) -> bool
    ensures { result ≡ list_any (λ b. b == byte) text.now }
{
    text.as_bytes().contains(&byte)
}
