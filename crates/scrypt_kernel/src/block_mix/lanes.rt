//! scryptBlockMix (RFC 7914, section 4) on words in diagonal order, four lanes at a time.

ghost use Rattle.std.specs.Prelude.{◌≡◌, ◌+◌, ◌*◌, ◌/◌, ◌%◌, ◌<◌, length, true};
ghost use Rattle.scrypt_kernel.specs.{AreCountedAs, block_mix, diagonal_order, standard_order};

use crate::CoreCount;
use crate::block_mix::mix;
pub use crate::cores::simd::core;
use crate::order::diagonal::Diagonal;
pub use crate::order::diagonal::{shuffle_in, shuffle_out};
use crate::parts::Parts;
use std::simd::u32x4;

/// Writes the block mix of `input` to `output`, both in diagonal order, and counts its `2 * r`
/// cores, all of them in diagonal order (RFC 7914, section 4).
///
/// `input` and `output` have `32 * r` words each, that is `2 * r` blocks of 16. `r` is at least 1.
#[inline(always)]
pub fn scrypt_block_mix(input: &[u32], output: &mut [u32], cores: &mut CoreCount)
    requires same { length input.now ≡ length output.old }
    requires some { 0 < length input.now }
    requires whole { length input.now % 32 ≡ 0 }
    ensures value { output.new ≡ diagonal_order (block_mix (standard_order input.now)) }
    ensures counted { AreCountedAs true (2 * (length input.now / 32)) cores.old cores.new }
{
    let len = input.len();
    mix::<Diagonal<u32x4>, Parts<'_>>(&Parts::of(input, len, 1), output, len, cores);
}
