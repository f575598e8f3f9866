//! The fields of an MCF string.
ghost use Rattle.std.specs.Prelude.{◌≡◌, ◌↔◌, ◌+◌, ◌*◌, ◌/◌, ◌≤◌, ℕ, List, length, take, drop, IsTrue, IfOk, IfErr, IsErrOf, MatchOption};
ghost use Rattle.password_hash.specs.Crypt64.{Crypt64, IsCrypt64, IsPiece, encoded_len};
ghost use Rattle.password_hash.specs.Mcf.{IsField};

use super::crypt64::{Base64, decoded_len, is_encoding};
use super::{Error, Result};
use crate::parts::{contains, first_piece};
use std::alloc::Global;

/// A field of an MCF string: any text without `$`, possibly empty.
#[derive(Clone, Copy, Debug)]
pub struct Field<'a> {
    pub(super) text: &'a str,
}

impl<'a> Field<'a> {
    ghost use Rattle.password_hash.specs.McfViews.{field_text};

    /// Returns the text of the field.
    pub fn as_str(&self) -> &'a str
        ensures value { result.now ≡ field_text self.now }
    {
        self.text
    }

    /// Decodes the field as Base64.
    ///
    /// Returns `EncodingInvalid`, without allocating, if the field is not an encoding, and
    /// `OutOfMemory` if the allocation fails.
    pub fn decode_base64(&self, alloc: Global, encoding: Base64) -> Result<Vec<u8>>
        ensures ok { IfOk result (λ bytes. Crypt64 bytes.items (field_text self.now)) }
        ensures invalid { IsErrOf result Error.EncodingInvalid ↔ (¬ IsCrypt64 (field_text self.now)) }
        ensures memory { IsErrOf result Error.OutOfMemory → IsCrypt64 (field_text self.now) }
    {
        encoding.decode_vec(alloc, self.text)
    }

    /// Returns the number of bytes that the field encodes in crypt Base64, or `None` if it is not
    /// an encoding. Does not allocate.
    pub fn base64_len(&self) -> Option<usize>
        ensures value { MatchOption result (¬ IsCrypt64 (field_text self.now))
            (λ n. (bytes : List ℕ) × Crypt64 bytes (field_text self.now) × (length bytes ≡ n)) }
    {
        decoded_len(self.text.as_bytes())
    }

    /// Returns whether the field encodes `bytes` in crypt Base64. Every byte is compared, also
    /// after a difference. Does not allocate.
    pub fn base64_matches(&self, bytes: &[u8]) -> bool
        ensures exact { IsTrue result ↔ Crypt64 bytes.now (field_text self.now) }
    {
        is_encoding(self.text.as_bytes(), bytes)
    }

    /// Returns whether the field encodes `bytes` in crypt Base64 at byte `at` of all its bytes.
    /// Every byte is compared, also after a difference. Does not allocate.
    ///
    /// The field is an encoding of at least `at + bytes.len()` bytes. `at` is a multiple of 3, and
    /// so is `bytes.len()` unless `bytes` reach the end.
    #[doc(hidden)]
    pub fn base64_matches_at(&self, at: usize, bytes: &[u8]) -> bool
        requires piece { (all : List ℕ) × Crypt64 all (field_text self.now)
            × IsPiece at (length bytes.now) (length all) }
        ensures exact { (all : List ℕ) → Crypt64 all (field_text self.now)
            → IsTrue result ↔ (bytes.now ≡ take (length bytes.now) (drop at all)) }
    {
        is_encoding(letters_at(self.text.as_bytes(), at, bytes.len()), bytes)
    }
}

/// An iterator over the fields of an MCF string, in order.
#[derive(Debug, Drop)]
pub struct Fields<'a> {
    /// The text after the next `$`, or `None` after the last field.
    pub(super) left: Option<&'a str>,
}

impl<'a> Iterator for Fields<'a> {
    ghost use Rattle.std.specs.Iterator.{YieldsFirstBy, item_count};
    ghost use Rattle.password_hash.specs.McfViews.{field_text, fields_left};

    type Item = Field<'a>;

    ghost next_gives = { YieldsFirstBy field_text fields_left };

    ghost remaining = { item_count fields_left };

    fn next(&mut self) -> Option<Field<'a>> {
        let (text, left) = first_piece(self.left?, '$');
        self.left = left;
        Some(Field { text })
    }
}

/// Returns whether `text` can be a field, which has no `$`.
pub(super) fn is_field(text: &str) -> bool
    ensures { IsTrue result ↔ IsField text.now }
{
    !contains(text, b'$')
}

/// Returns the part of `letters` that encodes `n` bytes from byte `at` on.
fn letters_at(letters: &[u8], at: usize, n: usize) -> &[u8]
    requires { at / 3 * 4 + encoded_len n ≤ length letters.now }
    ensures { result.now ≡ take (encoded_len n) (drop (at / 3 * 4) letters.now) }
{
    let from = at / 3 * 4;
    &letters[from..from + Base64::Crypt.encoded_len(n)]
}
