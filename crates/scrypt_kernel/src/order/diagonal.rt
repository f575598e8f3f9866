//! Diagonal order, in which the Salsa20/8 core is computed in four lanes.
//!
//! A block of 16 words is a square of four rows. In diagonal order its four diagonals follow one
//! another, so the words of each column are in the same lane of four vectors. Word 0 stays at index
//! 0, and word 1 is at index 13.

ghost use Rattle.std.specs.Prelude.{◌≡◌, ◌≢◌, ℕ, ◌+◌, ◌-◌, ◌*◌, ◌%◌, ◌^◌, ◌<◌, ◌≤◌, List, length, IsTrue, nat_lt, refl, slice_index, true};
ghost use Rattle.std.specs.List.{list_all};
ghost use Rattle.scrypt_kernel.specs.{AreInverse, block, diagonal_order, integerify, inverse_pivot, permuted, pivot};
ghost use Rattle.scrypt_kernel.specs.{standard_order};

use crate::CoreCount;
pub use crate::cores::simd::FourVectors as Diagonal;
pub use crate::cores::simd::both::Both;
pub use crate::cores::simd::scalars::Scalars;
use crate::cores::simd::{Lanes, in_vectors};
use crate::order::{OrderedBlocks, low_bits};
use crate::parts::Parts;
use crate::words::part;

/// The index in standard order of the word at each index in diagonal order.
pub const PIVOT_ABCD: [usize; 16] = [
    0, 5, 10, 15, //
    4, 9, 14, 3, //
    8, 13, 2, 7, //
    12, 1, 6, 11, //
];

/// The index in diagonal order of the word at each index in standard order.
pub const INVERSE_PIVOT_ABCD: [usize; 16] = [
    0, 13, 10, 7, //
    4, 1, 14, 11, //
    8, 5, 2, 15, //
    12, 9, 6, 3, //
];

/// Proves that the two tables are inverse to each other. Does nothing at run time.
pub fn pivots_are_inverse()
    ensures inverse { AreInverse PIVOT_ABCD INVERSE_PIVOT_ABCD }
    ensures places { PIVOT_ABCD ≡ pivot }
    ensures inverse_places { INVERSE_PIVOT_ABCD ≡ inverse_pivot }
{}

impl<V: Lanes> OrderedBlocks for Diagonal<V> {
    ghost use Rattle.scrypt_kernel.specs.Lanes.{block_of};

    ghost pivot = { pivot };

    ghost inverse_pivot = { inverse_pivot };

    ghost diagonal = { true };

    ghost count = { V.count };

    ghost held = { λ x k. block_of V.lanes x k };

    #[inline(always)]
    fn count() -> usize {
        V::count()
    }

    fn shuffle_in(x: &mut [u32]) {
        shuffle_in(x);
    }

    fn shuffle_out(x: &mut [u32]) {
        shuffle_out(x);
    }

    #[inline(always)]
    fn integerify(x: &[u32], log_n: u8) -> usize {
        integerify_diagonal(x, log_n)
    }

    #[tactic(auto, using(crate::proofs::LaneFacts::blocks_of_lanes))]
    #[inline(always)]
    fn read(parts: &Parts<'_>, i: usize) -> Diagonal<V> {
        Diagonal {
            a: V::read(parts, 0, 4 * i),
            b: V::read(parts, 0, 4 * i + 1),
            c: V::read(parts, 0, 4 * i + 2),
            d: V::read(parts, 0, 4 * i + 3),
        }
    }

    #[tactic(auto, using(crate::proofs::LaneFacts::blocks_of_lanes))]
    #[inline(always)]
    fn write(self, x: &mut [u32], len: usize, i: usize) {
        self.a.write(x, len, 4 * i);
        self.b.write(x, len, 4 * i + 1);
        self.c.write(x, len, 4 * i + 2);
        self.d.write(x, len, 4 * i + 3);
    }

    #[inline(always)]
    fn core(self, cores: &mut CoreCount) -> Diagonal<V> {
        self.counted_core(cores)
    }

    #[inline(always)]
    fn xor(self, y: Diagonal<V>) -> Diagonal<V> {
        Diagonal {
            a: self.a.xor(y.a),
            b: self.b.xor(y.b),
            c: self.c.xor(y.c),
            d: self.d.xor(y.d),
        }
    }

    ghost inverse = { record { places = refl; inverse_places = refl; undone = refl; redone = refl } };
}

/// Puts the words of each block into diagonal order.
///
/// The length of `x` is a multiple of 16, possibly 0.
pub fn shuffle_in(x: &mut [u32])
    requires whole { length x.old % 16 ≡ 0 }
    ensures value { x.new ≡ diagonal_order x.old }
{
    permute(x, &PIVOT_ABCD);
}

/// Puts the words of each block from diagonal order back into standard order.
///
/// The length of `x` is a multiple of 16, possibly 0.
pub fn shuffle_out(x: &mut [u32])
    requires whole { length x.old % 16 ≡ 0 }
    ensures value { x.new ≡ standard_order x.old }
{
    permute(x, &INVERSE_PIVOT_ABCD);
}

/// Returns Integerify modulo `2^log_n` of words in diagonal order. Words 0 and 1 of the last block
/// are at its indices 0 and 13 (RFC 7914, section 5, step 3).
///
/// The length of `x` is a positive multiple of 16, and `log_n` is at most 56.
#[inline(always)]
pub fn integerify_diagonal(x: &[u32], log_n: u8) -> usize
    requires some { 0 < length x.now }
    requires whole { length x.now % 16 ≡ 0 }
    requires small { log_n ≤ 56 }
    ensures places { let at = length x.now - 16 in
        result ≡ (slice_index x.now at + 2 ^ 32 * slice_index x.now (at + 13)) % 2 ^ log_n }
    ensures value { result ≡ integerify (standard_order x.now) % 2 ^ log_n }
    ensures inside { result < 2 ^ log_n }
{
    let at = x.len() - 16;
    low_bits(x[at], x[at + 13], log_n)
}

// Moves the word at index `pivot[i]` of each block to index `i`.
fn permute(x: &mut [u32], pivot: &[usize; 16])
    requires whole { length x.old % 16 ≡ 0 }
    requires places { IsTrue (list_all (λ j. nat_lt j 16) pivot.now) }
    ensures { x.new ≡ permuted pivot.now x.old }
{
    for k in 0..x.len() / 16 {
        permute_block(x, k, pivot);
    }
}

// Permutes block `k` only.
fn permute_block(x: &mut [u32], k: usize, pivot: &[usize; 16])
    requires inside { 16 * k + 16 ≤ length x.old }
    requires places { IsTrue (list_all (λ j. nat_lt j 16) pivot.now) }
    ensures written { block x.new k ≡ permuted pivot.now (block x.old k) }
    ensures others { (j : ℕ) → j ≢ k → block x.new j ≡ block x.old j }
{
    let mut permuted = [0u32; 16];
    let from = part(16, x, k);
    for i in 0..16 {
        permuted[i] = from[pivot[i]];
    }
    let len = x.len();
    in_vectors(&permuted).write(x, len, k);
}
