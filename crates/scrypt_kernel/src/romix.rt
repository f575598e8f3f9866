//! scryptROMix (RFC 7914, section 5).

ghost use Rattle.std.specs.Prelude.{◌≡◌, ℕ, ◌+◌, ◌-◌, ◌*◌, ◌/◌, ◌%◌, ◌^◌, ◌<◌, ◌≤◌, false, length, true};
ghost use Rattle.scrypt_kernel.specs.{AreBytesOfB, AreCountedAs, AreRoMixLens, AreThinLens, AreWalkLens, bytes_of};
ghost use Rattle.scrypt_kernel.specs.{part, permuted, ro_mix, ro_mix_cost, scratch_words, table_words};
ghost use Rattle.scrypt_kernel.specs.{thin_ro_mix_cost, thin_scratch_words, words_of};

use crate::CoreCount;
use crate::memory::{Buffer, TableMemory};
use crate::order::OrderedBlocks;
use crate::order::diagonal::Diagonal;
pub use crate::order::diagonal::integerify_diagonal;
use crate::order::standard::Standard;
pub use crate::order::standard::integerify_plain;
use crate::table::fill;
use crate::walk::take_steps;
use crate::words::{read_words, write_words};
use std::simd::u32x4;

/// Replaces each chunk of `b` by its scryptROMix. The chunks are interleaved, with words in the
/// order `O`, which has a block for each chunk. They share one table, `rows`, which keeps each row
/// whose number is a multiple of `2^s`. Counts the cores: `4 * N * r` for each chunk, and `2 * r`
/// more for each row that is recomputed.
///
/// A chunk has `128 * r` bytes with `r` at least 1. For each chunk, `rows` has a capacity of at
/// least `32 * r * 2^(log_n - s)` words, and `scratch` has at least `64 * r` words. `log_n` is at
/// most 56. Unless `s` is 0, there is one chunk, `s` is at most `log_n`, and `scratch` has at least
/// `96 * r` words. The contents of `rows` and `scratch` before the call do not matter, and after it
/// they are unspecified.
pub fn mix_chunks<O: OrderedBlocks, M: TableMemory>(
    b: &mut [u8],
    r: usize,
    rows: &mut M,
    scratch: &mut [u32],
    log_n: u8,
    s: u8,
    cores: &mut CoreCount,
)
    requires some { 0 < r }
    requires chunks { length b.old ≡ O.count * (128 * r) }
    requires small { log_n ≤ 56 }
    requires spacing { s ≤ log_n }
    requires alone { 0 < s → O.count ≡ 1 }
    requires room { O.count * table_words (log_n - s) r ≤ M.room rows.old }
    requires scratch { O.count * scratch_words r ≤ length scratch.old }
    requires spare { 0 < s → thin_scratch_words r ≤ length scratch.old }
    ensures value { (k : ℕ) → k < O.count
        → part (128 * r) b.new k ≡ bytes_of (ro_mix (words_of (part (128 * r) b.old k)) log_n) }
    ensures room { M.room rows.old ≤ M.room rows.new }
    ensures counted { AreCountedAs O.diagonal
        (O.count * thin_ro_mix_cost (words_of (part (128 * r) b.old 0)) log_n s r) cores.old cores.new }
{
    let n = O::count();
    let len = 32 * r;
    let (x, rest) = scratch.split_at_mut(n * len);
    let (next, spare) = rest.split_at_mut(n * len);
    // Step 1: X = B.
    read_words(b, x);
    O::shuffle_in(x);
    fill_and_walk::<O, M>(rows, x, next, spare, len, log_n, s, cores);
    // Step 4: B' = X.
    O::shuffle_out(x);
    write_words(x, b);
}

// Steps 2 and 3, for X in `x` before and after. The contents of `next` and `spare` after the call
// are unspecified.
fn fill_and_walk<O: OrderedBlocks, M: TableMemory>(
    rows: &mut M,
    x: &mut [u32],
    next: &mut [u32],
    spare: &mut [u32],
    len: usize,
    log_n: u8,
    s: u8,
    cores: &mut CoreCount,
)
    requires lens { AreWalkLens O.count len log_n s
        (length x.old) (length next.old) (length spare.old) (2 ^ (log_n - s) * (O.count * len)) }
    requires room { 2 ^ (log_n - s) * (O.count * len) ≤ M.room rows.old }
    ensures value { (k : ℕ) → k < O.count
        → part len x.new k ≡ permuted O.pivot (ro_mix (permuted O.inverse_pivot (part len x.old k)) log_n) }
    ensures room { M.room rows.old ≤ M.room rows.new }
    ensures counted { AreCountedAs O.diagonal (O.count
        * thin_ro_mix_cost (permuted O.inverse_pivot
        (part len x.old 0)) log_n s (len / 32)) cores.old cores.new }
{
    // Step 2: for i = 0 to N - 1 do V[i] = X, X = scryptBlockMix (X).
    fill::<O, M>(rows, x, next, len, log_n, s, cores);
    // Step 3: for i = 0 to N - 1 do j = Integerify (X) mod N, T = X xor V[j], X = scryptBlockMix
    // (T).
    take_steps::<O>(
        x,
        rows.words(),
        next,
        spare,
        len,
        log_n,
        s,
        1usize << log_n,
        cores,
    );
}

/// Replaces the bytes of `b` by their scryptROMix, and counts its `4 * N * r` cores, all of them in
/// diagonal order (RFC 7914, section 5).
///
/// `b` has `128 * r` bytes with `r` at least 1, the table `v` has `32 * r * N` words, the scratch
/// `t` has `64 * r` words, and `log_n` is at most 56. The contents of `v` and `t` before the call
/// do not matter, and after it they are unspecified.
#[tactic(auto, using(crate::proofs::ChunkFacts::alone))]
pub fn scrypt_ro_mix(b: &mut [u8], v: &mut [u32], t: &mut [u32], log_n: u8, cores: &mut CoreCount)
    requires lens { AreRoMixLens log_n (length b.old) (length v.old) (length t.old) }
    ensures value { b.new ≡ bytes_of (ro_mix (words_of b.old) log_n) }
    ensures counted { AreCountedAs true (ro_mix_cost log_n (length b.old / 128)) cores.old cores.new }
{
    let r = b.len() / 128;
    mix_chunks::<Diagonal<u32x4>, Buffer<'_>>(b, r, &mut Buffer::new(v), t, log_n, 0, cores);
}

/// Mixes as [`scrypt_ro_mix`] does, with a table that keeps each row whose number is a multiple of
/// `2^s`. Any other row is recomputed from the kept row below it whenever the walk needs it: row
/// `j` takes `j mod 2^s` block mixes of `2 * r` cores each, in addition to the `4 * N * r` cores.
///
/// `b` has `128 * r` bytes with `r` at least 1, the table `v` has `32 * r * 2^(log_n - s)` words,
/// the scratch `t` has `96 * r` words, `log_n` is at most 56, and `s` at most `log_n`. The contents
/// of `v` and `t` before the call do not matter, and after it they are unspecified.
#[tactic(auto, using(crate::proofs::ChunkFacts::alone))]
pub fn thin_ro_mix(
    b: &mut [u8],
    v: &mut [u32],
    t: &mut [u32],
    log_n: u8,
    s: u8,
    cores: &mut CoreCount,
)
    requires lens { AreThinLens log_n s (length b.old) (length v.old) (length t.old) }
    ensures value { b.new ≡ bytes_of (ro_mix (words_of b.old) log_n) }
    ensures counted { AreCountedAs true
        (thin_ro_mix_cost (words_of b.old) log_n s (length b.old / 128)) cores.old cores.new }
{
    let r = b.len() / 128;
    mix_chunks::<Diagonal<u32x4>, Buffer<'_>>(b, r, &mut Buffer::new(v), t, log_n, s, cores);
}

/// Mixes as [`scrypt_ro_mix`] does, with block mixes on words in standard order: no core is counted
/// as one in diagonal order.
///
/// The lengths are the same as for [`scrypt_ro_mix`].
#[tactic(auto, using(crate::proofs::ChunkFacts::alone))]
pub fn plain_ro_mix(b: &mut [u8], v: &mut [u32], t: &mut [u32], log_n: u8, cores: &mut CoreCount)
    requires lens { AreRoMixLens log_n (length b.old) (length v.old) (length t.old) }
    ensures value { b.new ≡ bytes_of (ro_mix (words_of b.old) log_n) }
    ensures counted { AreCountedAs false (ro_mix_cost log_n (length b.old / 128)) cores.old cores.new }
{
    let r = b.len() / 128;
    mix_chunks::<Standard, Buffer<'_>>(b, r, &mut Buffer::new(v), t, log_n, 0, cores);
}
