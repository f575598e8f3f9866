//! A short list of bytes that is kept without allocating: the salt or the key of a hash.
ghost use Rattle.std.specs.Prelude.{◌≡◌, ◌↔◌, ◌+◌, ◌≤◌, true, length, take, drop, nat_eq, IsOk, IsSome, IsTrue, IfErr, IfOk, IfSome};
ghost use Rattle.std.specs.Cmp.{partial_equiv_from_equiv};
ghost use Rattle.std.specs.Cmp.Lexicographic.{pointwise, nat_list_eq_equiv};
ghost use Rattle.password_hash.specs.ShortBytes.{AreBytesFromTo};
ghost use Rattle.password_hash.specs.declared.error.Error.TheVariants.{OutputSize, SaltInvalid};

use crate::{Error, Result};
use std::marker::Model;

/// `MIN` to `MAX` bytes in a fixed array, with zeros after them.
#[derive(Clone, Copy, Debug)]
pub struct ShortBytes<const MIN: usize, const MAX: usize> {
    pub(super) places: [u8; MAX],
    pub(super) len: usize,
}

impl<const MIN: usize, const MAX: usize> Model for ShortBytes<MIN, MAX> {
    ghost use Rattle.std.specs.Prelude.{ℕ, List, take, length};
    ghost use Rattle.password_hash.specs.ShortBytes.{AreStored, padded};
    ghost use Rattle.std.proofs.Common.{length-take-le};

    ghost Value = { List ℕ };

    ghost view = { λ a. take a.len a.places };

    ghost invariant = { λ a. AreStored MIN MAX a.places a.len };

    ghost inverse = { λ xs. record { places = padded MAX xs; len = length xs } };

    ghost inverse_ok = { λ a h i. record {
      places = h.zeros i;
      len = length-take-le a.len a.places h.within i;
    } };
}

impl<const MIN: usize, const MAX: usize> ShortBytes<MIN, MAX> {
    /// Copies `bytes`. Returns `None` if their length is out of bounds.
    pub(super) fn copied(bytes: &[u8]) -> Option<ShortBytes<MIN, MAX>>
        ensures exact { IsSome result ↔ ((MIN ≤ length bytes.now) × (length bytes.now ≤ MAX)) }
        ensures value { IfSome result (λ made. made ≡ bytes.now) }
        ensures bytes { IfSome result (AreBytesFromTo MIN MAX) }
    {
        let len = bytes.len();
        if len < MIN || len > MAX {
            return None;
        }
        let mut places = [0; MAX];
        places[..len].copy_from_slice(bytes);
        Some(ShortBytes { places, len })
    }

    /// Returns the number of bytes.
    pub fn len(&self) -> usize
        ensures value { result ≡ length self.now }
        ensures least { MIN ≤ result }
        ensures greatest { result ≤ MAX }
    {
        self.len
    }

    /// Returns the bytes.
    pub fn as_bytes(&self) -> &[u8]
        ensures value { result.now ≡ self.now }
        ensures least { MIN ≤ length result.now }
        ensures greatest { length result.now ≤ MAX }
    {
        &self.places[..self.len]
    }
}

impl<const MIN: usize, const MAX: usize> PartialEq for ShortBytes<MIN, MAX> {
    ghost eq = { λ s t. pointwise nat_eq s t };

    ghost laws = { partial_equiv_from_equiv nat_list_eq_equiv };

    fn eq(&self, other: &ShortBytes<MIN, MAX>) -> bool {
        are_same(self.as_bytes(), other.as_bytes())
    }
}

impl<const MIN: usize, const MAX: usize> Eq for ShortBytes<MIN, MAX> {
    ghost laws = { nat_list_eq_equiv };
}

/// A salt of 1 to 64 bytes.
pub type Salt = ShortBytes<1, 64>;

impl Salt {
    /// Copies a salt of 1 to 64 bytes.
    ///
    /// Returns `SaltInvalid` if `salt` has any other length.
    pub fn new(salt: &[u8]) -> Result<Salt>
        ensures exact { IsOk result ↔ ((1 ≤ length salt.now) × (length salt.now ≤ 64)) }
        ensures value { IfOk result (λ made. made ≡ salt.now) }
        ensures err { IfErr result (λ e. e ≡ SaltInvalid) }
    {
        Salt::copied(salt).ok_or(Error::SaltInvalid)
    }
}

/// A key of 10 to 64 bytes. Equality compares every byte, also after a difference.
pub type Output = ShortBytes<10, 64>;

const _: () = prove!(Output::MIN_LENGTH == 10 && Output::MAX_LENGTH == 64);

impl Output {
    /// The minimum length of a key in bytes.
    pub const MIN_LENGTH: usize = 10;

    /// The maximum length of a key in bytes.
    pub const MAX_LENGTH: usize = 64;

    /// Copies a key of 10 to 64 bytes.
    ///
    /// Returns `OutputSize` if `key` has any other length.
    pub fn new(key: &[u8]) -> Result<Output>
        ensures exact { IsOk result ↔ ((10 ≤ length key.now) × (length key.now ≤ 64)) }
        ensures value { IfOk result (λ output. output ≡ key.now) }
        ensures err { IfErr result (λ e. e ≡ OutputSize) }
    {
        Output::copied(key).ok_or(Error::OutputSize)
    }

    /// Returns whether the key has `bytes` at byte `at`. Every byte is compared, also after a
    /// difference.
    ///
    /// The key has at least `at + bytes.len()` bytes.
    #[doc(hidden)]
    pub fn matches_at(&self, at: usize, bytes: &[u8]) -> bool
        requires inside { at + length bytes.now ≤ length self.now }
        ensures exact { IsTrue result ↔ (bytes.now ≡ take (length bytes.now) (drop at self.now)) }
    {
        are_same(bytes, &self.as_bytes()[at..at + bytes.len()])
    }
}

/// Returns whether these are the same bytes. Every byte is compared, also after a difference.
#[tactic(auto, using(std::proofs::lemmas::Grind::same_number_lists))]
fn are_same(a: &[u8], b: &[u8]) -> bool
    ensures { (result ≡ true) ↔ (a.now ≡ b.now) }
{
    let mut same = a.len() == b.len();
    for i in 0..a.len().min(b.len()) {
        same &= a[i] == b[i];
    }
    same
}
