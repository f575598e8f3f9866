//! Encoding of bytes, one group of at most three at a time.
ghost use Rattle.std.specs.Prelude.{◌≡◌, ◌<◌, ◌++◌, [], MatchOption, IfSome};
ghost use Rattle.std.specs.Iterator.{YieldsFirst, item_count};
ghost use Rattle.password_hash.specs.Crypt64.{letters_of, crypt64_of};

use super::alphabet::letter;

/// An iterator over the letters that encode some bytes, in order.
#[derive(Clone, Copy)]
pub(super) struct Letters<'a> {
    /// Letters of this group still to be yielded, and their value.
    pending: usize,
    number: u32,
    /// The bytes after this group.
    bytes: &'a [u8],
}

impl<'a> Letters<'a> {
    /// Creates an iterator over the letters that encode `bytes`.
    #[tactic(auto, unfolding(crate::specs::Crypt64::letters_of))]
    pub(super) fn new(bytes: &'a [u8]) -> Letters<'a>
        ensures { letters_of result.pending result.number ++ crypt64_of result.bytes.now
            ≡ crypt64_of bytes.now }
    {
        Letters {
            pending: 0,
            number: 0,
            bytes,
        }
    }

    /// Starts the group of the first three bytes, or of the last one or two. Returns `None` if
    /// there are no bytes.
    #[tactic(auto, using(crate::proofs::GroupFacts::first_groups))]
    fn of_first_group(bytes: &'a [u8]) -> Option<Letters<'a>>
        ensures some { MatchOption result (bytes.now ≡ []) (λ letters. 0 < letters.pending) }
        ensures same { IfSome result (λ letters. crypt64_of bytes.now
            ≡ letters_of letters.pending letters.number ++ crypt64_of letters.bytes.now) }
    {
        let (group, rest) = bytes.split_at(bytes.len().min(3));
        if group.is_empty() {
            return None;
        }
        let mut number = [0; 4];
        number[..group.len()].copy_from_slice(group);
        Some(Letters {
            pending: group.len() + 1,
            number: u32::from_le_bytes(number),
            bytes: rest,
        })
    }
}

impl<'a> Iterator for Letters<'a> {
    type Item = u8;

    ghost next_gives = { YieldsFirst (λ s. letters_of s.pending s.number ++ crypt64_of s.bytes.now) };

    ghost remaining = { item_count (λ s. letters_of s.pending s.number ++ crypt64_of s.bytes.now) };

    fn next(&mut self) -> Option<u8> {
        if self.pending == 0 {
            *self = Letters::of_first_group(self.bytes)?;
        }
        let first = letter(self.number % 64);
        self.pending -= 1;
        self.number /= 64;
        Some(first)
    }
}
