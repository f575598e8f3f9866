//! The letters of identifiers, names and values.
ghost use Rattle.std.specs.Prelude.{◌≡◌};
ghost use Rattle.std.specs.List.{list_all};
ghost use Rattle.password_hash.specs.Letters.{is_identifier_letter, is_value_letter};

/// Returns whether every byte is one of `a-z0-9-`.
pub(crate) fn are_identifier_letters(bytes: &[u8]) -> bool
    ensures { result ≡ list_all is_identifier_letter bytes.now }
{
    bytes.iter().all(|b| is_identifier_letter(*b))
}

/// Returns whether every byte is one of `a-zA-Z0-9/+.-`.
pub(crate) fn are_value_letters(bytes: &[u8]) -> bool
    ensures { result ≡ list_all is_value_letter bytes.now }
{
    bytes.iter().all(|b| is_value_letter(*b))
}

/// Returns whether `b` is one of `a-z0-9-`.
fn is_identifier_letter(b: u8) -> bool
    ensures { result ≡ is_identifier_letter b }
{
    matches!(b, b'a'..=b'z' | b'0'..=b'9' | b'-')
}

/// Returns whether `b` is one of `a-zA-Z0-9/+.-`.
fn is_value_letter(b: u8) -> bool
    ensures { result ≡ is_value_letter b }
{
    matches!(b, b'a'..=b'z' | b'A'..=b'Z' | b'0'..=b'9' | b'/' | b'+' | b'.' | b'-')
}
