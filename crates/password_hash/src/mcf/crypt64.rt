//! Crypt Base64: the encoding of bytes in the letters of crypt(5), low bits first.
ghost use Rattle.std.specs.Prelude.{◌≡◌, ◌↔◌, ℕ, ◌+◌, ◌^◌, ◌<◌, ◌≤◌, List, ◌++◌, length, drop, string_bytes};
ghost use Rattle.std.specs.Prelude.{IsTrue, IsOk, IfOk, OnOk, IfErr, OnErr, IsErrOf, MatchOption};
ghost use Rattle.password_hash.specs.Crypt64.{Crypt64, IsCrypt64, crypt64_of, encoded_len};

use super::group::Group;
use super::letters::Letters;
use super::{Error, Result};
use std::alloc::Global;

/// A Base64 encoding.
#[derive(Clone, Copy, Debug, PartialEq, Eq)]
pub enum Base64 {
    /// The encoding of crypt(5): the letters `./0-9A-Za-z`, low bits first, without padding.
    Crypt,
}

impl Base64 {
    /// Encodes `bytes` as a string.
    ///
    /// Returns `OutOfMemory` if the allocation fails.
    pub fn encode_string(self, alloc: Global, bytes: &[u8]) -> Result<String>
        ensures ok { IfOk result (λ text. string_bytes text ≡ crypt64_of bytes.now) }
        ensures err { IfErr result (λ e. e ≡ Error.OutOfMemory) }
    {
        let len = bytes.len().saturating_add(bytes.len().div_ceil(3));
        let mut text = String::with_capacity(alloc, len)?;
        for letter in Letters::new(bytes) {
            text.push(char::from(letter))?;
        }
        Ok(text)
    }

    /// Decodes `letters` to bytes.
    ///
    /// Returns `EncodingInvalid`, without allocating, if `letters` are not an encoding: one of them
    /// is not in the alphabet, the last group has only one letter, or bits above the last byte are
    /// set. Returns `OutOfMemory` if the allocation fails.
    pub fn decode_vec(self, alloc: Global, letters: &str) -> Result<Vec<u8>>
        ensures ok { IfOk result (λ bytes. Crypt64 bytes.items letters.now) }
        ensures invalid { IsErrOf result Error.EncodingInvalid ↔ (¬ IsCrypt64 letters.now) }
        ensures memory { IsErrOf result Error.OutOfMemory → IsCrypt64 letters.now }
    {
        let mut rest = letters.as_bytes();
        let Some(len) = decoded_len(rest) else {
            return Err(Error::EncodingInvalid);
        };
        let mut bytes = Vec::with_capacity(alloc, len)?;
        while let Some((group, after)) = Group::split_first(rest) {
            bytes.extend_from_slice(group.as_bytes())?;
            rest = after;
        }
        Ok(bytes)
    }

    /// Returns how many letters encode `n` bytes, for `n` below 2^63.
    #[tactic(auto, using(crate::proofs::GroupFacts::lengths))]
    pub fn encoded_len(self, n: usize) -> usize
        requires small { n < 2 ^ 63 }
        ensures len { result ≡ encoded_len n }
        ensures letters { (bytes : List ℕ) → length bytes ≡ n → length (crypt64_of bytes) ≡ result }
    {
        n + n.div_ceil(3)
    }

    /// Writes the letters that encode `bytes` to the front of `out`, and returns their number. The
    /// rest of `out` is unchanged.
    ///
    /// Returns `EncodingInvalid` exactly if `out` is too short, and leaves it unchanged.
    #[tactic(auto, using(crate::proofs::GroupFacts::lengths))]
    pub fn encode_slice(self, bytes: &[u8], out: &mut [u8]) -> Result<usize>
        ensures exact { IsOk result ↔ (length (crypt64_of bytes.now) ≤ length out.old) }
        ensures ok { IfOk result (λ len. len ≡ length (crypt64_of bytes.now)) }
        ensures written { OnOk result (out.new
            ≡ crypt64_of bytes.now ++ drop (length (crypt64_of bytes.now)) out.old) }
        ensures err { IfErr result (λ e. e ≡ Error.EncodingInvalid) }
        ensures unchanged { OnErr result (out.new ≡ out.old) }
    {
        let n = bytes.len();
        if out.len() < n || out.len() - n < n.div_ceil(3) {
            return Err(Error::EncodingInvalid);
        }
        let mut len = 0;
        for letter in Letters::new(bytes) {
            out[len] = letter;
            len += 1;
        }
        Ok(len)
    }
}

/// Returns the number of bytes that `letters` encode, or `None` if they are not an encoding.
pub(super) fn decoded_len(letters: &[u8]) -> Option<usize>
    ensures { MatchOption result (¬ IsCrypt64 letters.now)
        (λ n. (bytes : List ℕ) × Crypt64 bytes letters.now × (length bytes ≡ n)) }
{
    let mut len = 0;
    let mut rest = letters;
    while let Some((group, after)) = Group::split_first(rest) {
        len += group.as_bytes().len();
        rest = after;
    }
    if rest.is_empty() { Some(len) } else { None }
}

/// Returns whether `letters` encode `bytes`. Every byte is compared, also after a difference.
pub(super) fn is_encoding(letters: &[u8], bytes: &[u8]) -> bool
    ensures { IsTrue result ↔ Crypt64 bytes.now letters.now }
{
    let mut same = true;
    let mut rest = letters.iter();
    for letter in Letters::new(bytes) {
        same &= rest.next() == Some(&letter);
    }
    same && rest.next().is_none()
}
