//! The walk of scryptROMix (RFC 7914, section 5, step 3).

ghost use Rattle.std.specs.Prelude.{◌≡◌, ℕ, ◌+◌, ◌-◌, ◌*◌, ◌/◌, ◌%◌, ◌^◌, ◌<◌, ◌≤◌, List, length, slice_index};
ghost use Rattle.scrypt_kernel.specs.{AfterSteps, AreCountedAs, AreWalkLens, IsRowLen, integerify, mix_of, mixed_in};
ghost use Rattle.scrypt_kernel.specs.{part, permuted, place, recomputed_rows, x_after};

use crate::CoreCount;
use crate::block_mix::{Xor, mix};
use crate::order::OrderedBlocks;
use crate::parts::Parts;
use crate::table::recompute;
use crate::words::{part, put_vector, vector};

/// Does `count` of the N iterations of step 3: j = Integerify (X) mod N, T = X xor V[j], X =
/// scryptBlockMix (T).
///
/// X is in `x` before the call and after it. The steps write it alternately to `next` and to `x`,
/// so that no step copies it, except a last odd one. `v` keeps each row whose number is a multiple
/// of `2^s`; unless `s` is 0, there is one chunk, and `spare` is for a row that is recomputed.
pub(crate) fn take_steps<O: OrderedBlocks>(
    x: &mut [u32],
    v: &[u32],
    next: &mut [u32],
    spare: &mut [u32],
    len: usize,
    log_n: u8,
    s: u8,
    count: usize,
    cores: &mut CoreCount,
)
    requires lens { AreWalkLens O.count len log_n s (length x.old) (length next.old) (length spare.old) (length v.now) }
    ensures steps { AfterSteps O.pivot O.count len log_n s O.diagonal v.now count x.old cores.old x.new cores.new }
{
    'pairs: for _k in 0..count / 2 {
        step::<O>(x, v, next, spare, len, log_n, s, cores);
        step::<O>(next, v, x, spare, len, log_n, s, cores);
    }
    if count % 2 == 1 {
        step::<O>(x, v, next, spare, len, log_n, s, cores);
        x.copy_from_slice(next);
    }
}

// Step 3 for one `i`: j = Integerify (X) mod N, T = X xor V[j], X = scryptBlockMix (T).
//
// It is not inlined: as two copies in one function, the steps of three chunks take 1.02 to 1.04 of
// the time with SSE2.
fn step<O: OrderedBlocks>(
    x: &[u32],
    v: &[u32],
    next: &mut [u32],
    spare: &mut [u32],
    len: usize,
    log_n: u8,
    s: u8,
    cores: &mut CoreCount,
)
    requires lens { AreWalkLens O.count len log_n s (length x.now) (length next.old) (length spare.old) (length v.now) }
    ensures value { (k : ℕ) → k < O.count → part len next.new k
        ≡ x_after O.pivot O.inverse_pivot O.count k len log_n s v.now (part len x.now k) }
    ensures counted { let j = integerify (permuted O.inverse_pivot (part len x.now 0)) % 2 ^ log_n in
        AreCountedAs O.diagonal ((recomputed_rows s j + 1) * (O.count * (2 * (len / 32)))) cores.old cores.new }
{
    let starts = take_rows::<O>(x, v, next, len, log_n, s);
    // The row of the first chunk. If there are others, every row is kept.
    let j = O::integerify(part(len, x, 0), log_n);
    let missing = j % (1usize << s);
    if missing == 0 {
        let taken = Xor {
            x: Parts::of(x, len, O::count()),
            y: Parts::new(v, len, starts),
        };
        mix::<O, Xor<'_>>(&taken, next, len, cores);
    } else {
        let kept = part(x.len(), v, j >> s);
        mix_recomputed::<O>(x, kept, missing, next, spare, len, cores);
    }
}

// T = X xor V[j], X = scryptBlockMix (T), where V[j] is recomputed: it is `missing` rows after
// `kept`.
fn mix_recomputed<O: OrderedBlocks>(
    x: &[u32],
    kept: &[u32],
    missing: usize,
    next: &mut [u32],
    spare: &mut [u32],
    len: usize,
    cores: &mut CoreCount,
)
    requires some { 0 < missing }
    requires row { IsRowLen len }
    requires chunks { length x.now ≡ O.count * len }
    requires kept { length kept.now ≡ length x.now }
    requires output { length next.old ≡ length x.now }
    requires room { length x.now ≤ length spare.old }
    ensures value { (k : ℕ) → k < O.count
        → part len next.new k
        ≡ mix_of O.pivot O.inverse_pivot (part len x.now k) (mixed_in O.pivot O.inverse_pivot missing
        (part len kept.now k)) }
    ensures counted { AreCountedAs O.diagonal ((missing + 1) * (O.count * (2 * (len / 32)))) cores.old cores.new }
{
    let row = &mut spare[..x.len()];
    recompute::<O>(kept, len, missing, row, next, cores);
    let joined = Xor {
        x: Parts::of(x, len, O::count()),
        y: Parts::of(row, len, O::count()),
    };
    mix::<O, Xor<'_>>(&joined, next, len, cores);
}

// Returns for each chunk the start of V[j] with j = Integerify (X) mod N, or of the kept row below
// it, and prefetches that row. The contents of `next` after the call are unspecified.
#[inline(always)]
fn take_rows<O: OrderedBlocks>(
    x: &[u32],
    v: &[u32],
    next: &mut [u32],
    len: usize,
    log_n: u8,
    s: u8,
) -> [usize; 4]
    requires lens { (spare_len : ℕ)
        × AreWalkLens O.count len log_n s (length x.now) (length next.old) spare_len (length v.now) }
    ensures starts { (k : ℕ) → k < O.count → slice_index result k
        ≡ place O.count (integerify (permuted O.inverse_pivot (part len x.now k)) % 2 ^ log_n / 2 ^ s) k * len }
{
    let n = O::count();
    let mut starts = [0usize; 4];
    'chunks: for k in 0..n {
        let j = O::integerify(part(len, x, k), log_n);
        let at = (j >> s) * n + k;
        starts[k] = at * len;
        prefetch_row(part(len, v, at), &mut next[k * len..k * len + len]);
    }
    starts
}

// Reads four words of each of the first eight blocks of `row`, and of its last block, which the
// block mix reads first.
//
// A row of the table is at a random address in memory that is larger than the caches, and the core
// of one block has to end before the core of the next block begins. These reads do not depend on
// each other, so that their cache misses overlap; otherwise the block mix would wait for each
// block, one after another. Measured at (17, 8, 1), they save 5 to 15 per cent; reading also the
// blocks after the eighth, which the processor fetches by itself, saves nothing more. The first
// four words of `spare` are overwritten: otherwise the compiler would remove the reads as dead
// code.
#[inline(always)]
fn prefetch_row(row: &[u32], spare: &mut [u32])
    requires some { 16 ≤ length row.now }
    requires room { 4 ≤ length spare.old }
{
    let mut seen = vector(row, row.len() / 4 - 4);
    for k in 0..(row.len() / 16).min(8) {
        seen = seen | vector(row, 4 * k);
    }
    put_vector(spare, 0, seen);
}
