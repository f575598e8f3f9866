//! The orders that the words of a block can be in while it is mixed.

ghost use Rattle.std.specs.Prelude.{◌≡◌, ◌≢◌, Bool, ℕ, ◌+◌, ◌*◌, ◌%◌, ◌^◌, ◌<◌, ◌≤◌, List, length};
ghost use Rattle.scrypt_kernel.specs.{AreCountedAs, AreInverse, AreParts, block, integerify, part, part_of, permuted};
ghost use Rattle.scrypt_kernel.specs.{salsa20_8, xor_words};

pub mod diagonal;
pub mod standard;

use crate::CoreCount;
use crate::parts::Parts;

/// The block X of a block mix (RFC 7914, section 4), or one block of each chunk of a group, which
/// are interleaved. Its type is the order of the words and the number of chunks.
pub trait OrderedBlocks: Copy {
    // pivot[i] is the standard index of the word stored at index i
    ghost pivot: { List ℕ };

    // inverse_pivot[i] is the index of the word whose standard index is i
    ghost inverse_pivot: { List ℕ };

    // whether it is diagonal order, and its cores are counted as such
    ghost diagonal: { Bool };

    // the number of blocks, one for each chunk
    ghost count: { ℕ };

    // the words of block k
    ghost held: { Self → ℕ → List ℕ };

    /// Returns the number of blocks, from one to four.
    fn count() -> usize
        ensures value { result ≡ count }
        ensures some { 0 < result }
        ensures few { result ≤ 4 };

    /// Puts words from standard order into this order.
    fn shuffle_in(x: &mut [u32])
        requires { length x.old % 16 ≡ 0 }
        ensures value { x.new ≡ permuted pivot x.old };

    /// Puts words from this order into standard order.
    fn shuffle_out(x: &mut [u32])
        requires { length x.old % 16 ≡ 0 }
        ensures value { x.new ≡ permuted inverse_pivot x.old };

    /// Returns Integerify modulo `2^log_n` (RFC 7914, section 5, step 3).
    fn integerify(x: &[u32], log_n: u8) -> usize
        requires some { 0 < length x.now }
        requires whole { length x.now % 16 ≡ 0 }
        requires small { log_n ≤ 56 }
        ensures value { result ≡ integerify (permuted inverse_pivot x.now) % 2 ^ log_n }
        ensures inside { result < 2 ^ log_n };

    /// Reads block `i` of each part.
    fn read(parts: &Parts<'_>, i: usize) -> Self
        requires all { AreParts count parts.now }
        requires inside { 16 * i + 16 ≤ parts.now.len }
        ensures value { (k : ℕ) → k < count → held result k ≡ block (part_of parts.now k) i };

    /// Writes the blocks as block `i` of the parts of `x`, which is cut into parts of `len` words.
    fn write(self, x: &mut [u32], len: usize, i: usize)
        requires all { count * len ≤ length x.old }
        requires inside { 16 * i + 16 ≤ len }
        ensures written { (k : ℕ) → k < count → block (part len x.new k) i ≡ held self k }
        ensures others { (k j : ℕ) → k < count → j ≢ i → block (part len x.new k) j ≡ block (part len x.old k) j };

    /// Returns the Salsa20/8 core of each block (RFC 7914, section 3), and counts these cores.
    fn core(self, cores: &mut CoreCount) -> Self
        ensures value { (k : ℕ) → k < count → held result k
            ≡ permuted pivot (salsa20_8 (permuted inverse_pivot (held self k))) }
        ensures counted { AreCountedAs diagonal count cores.old cores.new };

    /// Returns the exclusive or of each block with the same block of `y`.
    fn xor(self, y: Self) -> Self
        ensures value { (k : ℕ) → k < count → held result k ≡ xor_words (held self k) (held y k) };

    ghost inverse: { AreInverse pivot inverse_pivot };
}

// Returns the low `log_n` bits of the little-endian number that begins with these two words.
#[inline(always)]
#[tactic(auto, using(crate::proofs::OrderFacts::low_bits))]
fn low_bits(first: u32, second: u32, log_n: u8) -> usize
    requires { log_n ≤ 56 }
    ensures value { result ≡ (first + 2 ^ 32 * second) % 2 ^ log_n }
    ensures inside { result < 2 ^ log_n }
{
    let number = (u64::from(second) << 32) | u64::from(first);
    (number & ((1u64 << log_n) - 1)) as usize
}
