//! Lists of words, their bytes, and the parts that they are cut into.

ghost use Rattle.std.specs.Prelude.{◌≡◌, ◌≢◌, ℕ, ◌+◌, ◌*◌, ◌%◌, ◌≤◌, drop, length, take};
ghost use Rattle.scrypt_kernel.specs.Words.{add_words, bytes_of, part, words_of};

use std::simd::u32x4;

/// Reads the words of `bytes`, four bytes each in little-endian order.
pub(crate) fn read_words(bytes: &[u8], words: &mut [u32])
    requires { length bytes.now ≡ 4 * length words.old }
    ensures { words.new ≡ words_of bytes.now }
{
    for i in 0..words.len() {
        let at = 4 * i;
        words[i] = u32::from_le_bytes([bytes[at], bytes[at + 1], bytes[at + 2], bytes[at + 3]]);
    }
}

/// Writes the bytes of `words`, four each in little-endian order.
pub(crate) fn write_words(words: &[u32], bytes: &mut [u8])
    requires { length bytes.old ≡ 4 * length words.now }
    ensures { bytes.new ≡ bytes_of words.now }
{
    for i in 0..words.len() {
        bytes[4 * i..4 * i + 4].copy_from_slice(&words[i].to_le_bytes());
    }
}

/// Adds `y` to `x`, word by word.
#[inline(always)]
#[tactic(auto, using(crate::proofs::WordFacts::zip2_all))]
pub(crate) fn add_words(x: &mut [u32], y: &[u32])
    requires { length x.old ≡ length y.now }
    ensures { x.new ≡ add_words x.old y.now }
{
    for i in 0..x.len() {
        x[i] = x[i].wrapping_add(y[i]);
    }
}

/// Returns part `k` of `x`, which is cut into parts of `len` words.
#[inline(always)]
pub(crate) fn part(len: usize, x: &[u32], k: usize) -> &[u32]
    requires { k * len + len ≤ length x.now }
    ensures value { result.now ≡ part len x.now k }
    ensures len { length result.now ≡ len }
{
    row(x, k * len, len)
}

/// Returns the `len` words of `x` that begin at the index `start`.
#[inline(always)]
pub(crate) fn row(x: &[u32], start: usize, len: usize) -> &[u32]
    requires { start + len ≤ length x.now }
    ensures value { result.now ≡ take len (drop start x.now) }
    ensures len { length result.now ≡ len }
{
    &x[start..start + len]
}

/// Returns part `k` of `x`, which is cut into parts of four words, as a vector.
#[inline(always)]
pub(crate) fn vector(x: &[u32], k: usize) -> u32x4
    requires { 4 * k + 4 ≤ length x.now }
    ensures { result ≡ part 4 x.now k }
{
    u32x4::from_slice(part(4, x, k))
}

/// Writes `from` as part `k` of `x`, which is cut into parts of four words.
#[inline(always)]
pub(crate) fn put_vector(x: &mut [u32], k: usize, from: u32x4)
    requires { 4 * k + 4 ≤ length x.old }
    ensures written { part 4 x.new k ≡ from }
    ensures others { (j : ℕ) → j ≢ k → part 4 x.new j ≡ part 4 x.old j }
{
    from.copy_to_slice(&mut x[4 * k..4 * k + 4]);
}

/// Writes `from` as part `k` of `x`, which is cut into parts of four words.
#[inline(always)]
pub(crate) fn put_words(x: &mut [u32], k: usize, from: &[u32; 4])
    requires { 4 * k + 4 ≤ length x.old }
    ensures written { part 4 x.new k ≡ from.now }
    ensures others { (j : ℕ) → j ≢ k → part 4 x.new j ≡ part 4 x.old j }
{
    x[4 * k..4 * k + 4].copy_from_slice(from);
}

/// Writes `from` as vector `j` of part `k` of `x`, which is cut into parts of `len` words.
#[inline(always)]
#[tactic(auto, using(crate::proofs::PartFacts::part_put_other))]
pub(crate) fn put_in_part(x: &mut [u32], len: usize, k: usize, j: usize, from: u32x4)
    requires inside { 4 * j + 4 ≤ len }
    requires room { k * len + len ≤ length x.old }
    ensures written { part 4 (part len x.new k) j ≡ from }
    ensures others { (i : ℕ) → i ≢ j → part 4 (part len x.new k) i ≡ part 4 (part len x.old k) i }
    ensures parts { (i : ℕ) → i ≢ k → part len x.new i ≡ part len x.old i }
{
    put_vector(&mut x[k * len..k * len + len], j, from);
}
