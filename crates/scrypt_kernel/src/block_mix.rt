//! scryptBlockMix (RFC 7914, section 4).

ghost use Rattle.std.specs.Prelude.{◌≡◌, ℕ, ◌+◌, ◌*◌, ◌/◌, ◌%◌, ◌<◌, ◌≤◌, List, length};
ghost use Rattle.scrypt_kernel.specs.{AfterTurns, AreCountedAs, IsRowLen, block, block_mix, part, permuted, salsa20_8};
ghost use Rattle.scrypt_kernel.specs.{xor_words};

pub mod lanes;
pub mod pivot;
pub mod plain;

use crate::CoreCount;
use crate::order::OrderedBlocks;
use crate::parts::Parts;

// The words that a block mix reads, block by block: a row of each chunk.
pub(crate) trait Input {
    // whether there are n rows of len words
    ghost are_rows: { Self → ℕ → ℕ → Type 0 };

    // row k
    ghost words: { Self → ℕ → List ℕ };

    // Block `i` of each row. A row has `len` words.
    fn read<O: OrderedBlocks>(&self, i: usize, len: usize) -> O
        requires rows { are_rows self.now O.count len }
        requires inside { 16 * i + 16 ≤ len }
        ensures value { (k : ℕ) → k < O.count → O.held result k ≡ block (words self.now k) i }
        ensures long { (k : ℕ) → k < O.count → length (words self.now k) ≡ len };
}

impl<'a> Input for Parts<'a> {
    ghost use Rattle.scrypt_kernel.specs.Parts.{AreRows, part_of};

    ghost are_rows = { λ parts n len. AreRows n len parts };

    ghost words = { λ parts k. part_of parts k };

    #[inline(always)]
    fn read<O: OrderedBlocks>(&self, i: usize, _len: usize) -> O {
        O::read(self, i)
    }
}

// The exclusive or of two rows of each chunk. It is computed as the block mix reads it, and is
// never in memory as a whole.
#[derive(Clone, Copy)]
pub(crate) struct Xor<'a> {
    pub(crate) x: Parts<'a>,
    pub(crate) y: Parts<'a>,
}

impl<'a> Input for Xor<'a> {
    ghost use Rattle.scrypt_kernel.specs.Parts.{AreRows, part_of};

    ghost are_rows = { λ both n len. AreRows n len both.x × AreRows n len both.y };

    ghost words = { λ both k. xor_words (part_of both.x k) (part_of both.y k) };

    #[inline(always)]
    fn read<O: OrderedBlocks>(&self, i: usize, _len: usize) -> O {
        let x: O = O::read(&self.x, i);
        x.xor(O::read(&self.y, i))
    }
}

// The block mix of each row, in the order `O`: B is `input`, and B' is `output`.
#[inline(always)]
pub(crate) fn mix<O: OrderedBlocks, I: Input>(
    input: &I,
    output: &mut [u32],
    len: usize,
    cores: &mut CoreCount,
)
    requires rows { I.are_rows input.now O.count len }
    requires output { length output.old ≡ O.count * len }
    requires row { IsRowLen len }
    ensures value { (k : ℕ) → k < O.count → part len output.new k
        ≡ permuted O.pivot (block_mix (permuted O.inverse_pivot (I.words input.now k))) }
    ensures counted { AreCountedAs O.diagonal (O.count * (2 * (len / 32))) cores.old cores.new }
{
    let r = len / 32;
    // Step 1: X = B[2 * r - 1].
    let mut x: O = input.read(2 * r - 1, len);
    'turns: for i in 0..r {
        x = take_turn::<O, I>(x, input, output, i, len, cores);
    }
}

// One double step of a block mix: steps 2 and 3 for `2 * i` and `2 * i + 1`, with X in `x` before
// and in the result after.
#[inline(always)]
pub(crate) fn take_turn<O: OrderedBlocks, I: Input>(
    x: O,
    input: &I,
    output: &mut [u32],
    i: usize,
    len: usize,
    cores: &mut CoreCount,
) -> O
    requires rows { I.are_rows input.now O.count len }
    requires output { length output.old ≡ O.count * len }
    requires row { IsRowLen len }
    requires inside { i < len / 32 }
    ensures mixed { (k : ℕ) → k < O.count
        → AfterTurns O.pivot O.inverse_pivot (I.words input.now k) i (O.held x k) (part len output.old k)
        → AfterTurns O.pivot O.inverse_pivot (I.words input.now k) (i
        + 1) (O.held result k) (part len output.new k) }
    ensures counted { AreCountedAs O.diagonal (O.count * 2) cores.old cores.new }
{
    let r = len / 32;
    // Step 2: for i = 0 to 2 * r - 1 do T = X xor B[i], X = Salsa (T), Y[i] = X.
    // Step 3: B' = (Y[0], Y[2], .., Y[2 * r - 2], Y[1], Y[3], .., Y[2 * r - 1]).
    let x = mix_block::<O, I>(x, input, 2 * i, len, cores);
    x.write(output, len, i);
    let x = mix_block::<O, I>(x, input, 2 * i + 1, len, cores);
    x.write(output, len, r + i);
    x
}

// Step 2 for one `i`, except Y[i] = X: T = X xor B[i], X = Salsa (T).
#[inline(always)]
fn mix_block<O: OrderedBlocks, I: Input>(
    x: O,
    input: &I,
    i: usize,
    len: usize,
    cores: &mut CoreCount,
) -> O
    requires rows { I.are_rows input.now O.count len }
    requires inside { 16 * i + 16 ≤ len }
    ensures value { (k : ℕ) → k < O.count → O.held result k ≡ permuted O.pivot (salsa20_8
        (permuted O.inverse_pivot (xor_words (O.held x k) (block (I.words input.now k) i)))) }
    ensures long { (k : ℕ) → k < O.count → length (I.words input.now k) ≡ len }
    ensures counted { AreCountedAs O.diagonal O.count cores.old cores.new }
{
    x.xor(input.read(i, len)).core(cores)
}
