//! The order of the standard.

ghost use Rattle.std.specs.Prelude.{◌≡◌, ℕ, ◌%◌, ◌^◌, ◌<◌, ◌≤◌, List, false, length, refl};
ghost use Rattle.std.specs.List.{range_with_len};
ghost use Rattle.scrypt_kernel.specs.RoMix.{integerify};

use crate::CoreCount;
use crate::cores::salsa;
use crate::cores::simd::{FourVectors, in_vectors};
use crate::order::{OrderedBlocks, low_bits};
use crate::parts::Parts;
use std::simd::u32x4;

/// A block with its words in the order of the standard, as four vectors.
#[derive(Clone, Copy)]
pub struct Standard {
    rows: FourVectors<u32x4>,
}

impl OrderedBlocks for Standard {
    ghost use Rattle.scrypt_kernel.specs.{block_of, part};

    ghost pivot = { range_with_len 0 16 };

    ghost inverse_pivot = { range_with_len 0 16 };

    ghost diagonal = { false };

    ghost count = { 1 };

    ghost held = { λ x k. block_of (λ v k. part 4 v k) x.rows k };

    #[inline(always)]
    fn count() -> usize {
        1
    }

    #[tactic(auto, using(crate::proofs::OrderFacts::permuted_in_place))]
    fn shuffle_in(_x: &mut [u32]) {}

    #[tactic(auto, using(crate::proofs::OrderFacts::permuted_in_place))]
    fn shuffle_out(_x: &mut [u32]) {}

    #[inline(always)]
    #[tactic(auto, using(crate::proofs::OrderFacts::permuted_in_place))]
    fn integerify(x: &[u32], log_n: u8) -> usize {
        integerify_plain(x, log_n)
    }

    #[inline(always)]
    fn read(parts: &Parts<'_>, i: usize) -> Standard {
        Standard {
            rows: FourVectors::read(parts, i),
        }
    }

    #[inline(always)]
    fn write(self, x: &mut [u32], len: usize, i: usize) {
        self.rows.write(x, len, i);
    }

    #[inline(always)]
    #[tactic(auto, using(crate::proofs::OrderFacts::permuted_in_place))]
    fn core(self, cores: &mut CoreCount) -> Standard {
        let mut words = self.rows.block(0);
        salsa::core(&mut words, cores);
        Standard {
            rows: in_vectors(&words),
        }
    }

    #[inline(always)]
    fn xor(self, y: Standard) -> Standard {
        Standard {
            rows: self.rows.xor(y.rows),
        }
    }

    ghost inverse = { record { places = refl; inverse_places = refl; undone = refl; redone = refl } };
}

/// Returns Integerify modulo `2^log_n`: the low `log_n` bits of the last block of `x`, read as a
/// number in little-endian order (RFC 7914, section 5, step 3).
///
/// The length of `x` is a positive multiple of 16, and `log_n` is at most 56.
#[inline(always)]
#[tactic(auto, using(crate::proofs::OrderFacts::integerify_low))]
pub fn integerify_plain(x: &[u32], log_n: u8) -> usize
    requires some { 0 < length x.now }
    requires whole { length x.now % 16 ≡ 0 }
    requires small { log_n ≤ 56 }
    ensures value { result ≡ integerify x.now % 2 ^ log_n }
    ensures inside { result < 2 ^ log_n }
{
    let at = x.len() - 16;
    low_bits(x[at], x[at + 1], log_n)
}
