//! scryptBlockMix (RFC 7914, section 4) on words in standard order.

ghost use Rattle.std.specs.Prelude.{◌≡◌, ◌+◌, ◌*◌, ◌/◌, ◌%◌, ◌<◌, false, length};
ghost use Rattle.scrypt_kernel.specs.{AreCountedAs, block_mix};

use crate::CoreCount;
use crate::block_mix::mix;
use crate::order::standard::Standard;
use crate::parts::Parts;

/// Writes the block mix of `input` to `output`, and counts its `2 * r` cores (RFC 7914, section 4).
///
/// `input` and `output` have `32 * r` words each, that is `2 * r` blocks of 16. `r` is at least 1.
#[inline(always)]
pub fn scrypt_block_mix(input: &[u32], output: &mut [u32], cores: &mut CoreCount)
    requires same { length input.now ≡ length output.old }
    requires some { 0 < length input.now }
    requires whole { length input.now % 32 ≡ 0 }
    ensures value { output.new ≡ block_mix input.now }
    ensures counted { AreCountedAs false (2 * (length input.now / 32)) cores.old cores.new }
{
    let len = input.len();
    mix::<Standard, Parts<'_>>(&Parts::of(input, len, 1), output, len, cores);
}
