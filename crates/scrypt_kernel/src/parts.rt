//! Parts of the same length, such as the rows of several chunks.

ghost use Rattle.std.specs.Prelude.{◌≡◌, ℕ, ◌+◌, ◌*◌, ◌<◌, ◌≤◌, drop, length, slice_index, take};
ghost use Rattle.scrypt_kernel.specs.Words.{part};

use crate::words::row;

/// At most four parts of `len` words each, which begin at these indices of `words`.
#[derive(Clone, Copy)]
pub struct Parts<'a> {
    words: &'a [u32],
    len: usize,
    starts: [usize; 4],
}

impl<'a> Parts<'a> {
    ghost use Rattle.scrypt_kernel.specs.Parts.{AreParts, part_of};

    /// Takes the parts of `words` that begin at these indices.
    #[inline(always)]
    pub(crate) fn new(words: &'a [u32], len: usize, starts: [usize; 4]) -> Parts<'a>
        ensures all { (n : ℕ) → n ≤ 4 → ((k : ℕ) → k < n → slice_index starts k + len ≤ length words.now)
            → AreParts n result }
        ensures len { result.len ≡ len }
        ensures parts { (k : ℕ) → part_of result k ≡ take len (drop (slice_index starts k) words.now) }
    {
        Parts { words, len, starts }
    }

    /// Cuts `words` into `n` parts, one after another.
    #[inline(always)]
    pub(crate) fn of(words: &'a [u32], len: usize, n: usize) -> Parts<'a>
        requires few { n ≤ 4 }
        requires inside { n * len ≤ length words.now }
        ensures all { AreParts n result }
        ensures len { result.len ≡ len }
        ensures parts { (k : ℕ) → k < n → part_of result k ≡ part len words.now k }
    {
        let mut starts = [0usize; 4];
        'parts: for k in 0..n {
            starts[k] = k * len;
        }
        Parts { words, len, starts }
    }

    /// Returns part `k`.
    #[inline(always)]
    pub(crate) fn part(&self, k: usize) -> &'a [u32]
        requires few { k < 4 }
        requires inside { slice_index self.now.starts k + self.now.len ≤ length self.now.words.now }
        ensures value { result.now ≡ part_of self.now k }
        ensures len { length result.now ≡ self.now.len }
    {
        row(self.words, self.starts[k], self.len)
    }
}
