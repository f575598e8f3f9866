//! Decoding of letters, one group of at most four at a time.
ghost use Rattle.std.specs.Prelude.{◌≡◌, ◌+◌, ◌<◌, ◌≤◌, [], length, take, MatchOption, IfSome};
ghost use Rattle.password_hash.specs.Crypt64.{IsCrypt64, Begins};

use super::alphabet::number;

/// The bytes that two, three or four letters encode: the first `len` of `bytes`.
#[derive(Clone, Copy)]
pub(super) struct Group {
    bytes: [u8; 4],
    len: usize,
    ghost in_range: { len ≤ 3 },
}

impl Group {
    /// Decodes the first four letters, or fewer at the end, and returns their bytes and the letters
    /// after them. Returns `None` if there are no letters, or if these are not an encoding.
    pub(super) fn split_first(letters: &[u8]) -> Option<(Group, &[u8])>
        ensures split { MatchOption result
            (IsCrypt64 letters.now → letters.now ≡ [])
            (λ split. Begins letters.now (take split.0.len split.0.bytes) split.1.now) }
        ensures shorter { IfSome result (λ split.
            length (take split.0.len split.0.bytes) + length split.1.now < length letters.now) }
    {
        let (group, rest) = letters.split_at(letters.len().min(4));
        let len = group.len().saturating_sub(1);
        let number = number(group)?;
        // A single letter encodes no byte, and no bit above the last byte may be set.
        if len == 0 || number >> (8 * len) != 0 {
            return None;
        }
        let bytes = number.to_le_bytes();
        Some((Group { bytes, len }, rest))
    }

    /// Returns the bytes.
    pub(super) fn as_bytes(&self) -> &[u8]
        ensures { result.now ≡ take self.now.len self.now.bytes }
    {
        &self.bytes[..self.len]
    }
}
