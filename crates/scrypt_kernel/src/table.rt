//! The table of scryptROMix (RFC 7914, section 5, step 2), which keeps each row of V whose number
//! is a multiple of `2^s`. With `s` of 0 it is the whole V.
//!
//! Several chunks share a table, whose rows have `len` words of each chunk, one after another.

ghost use Rattle.std.specs.Prelude.{◌≡◌, ℕ, ◌+◌, ◌-◌, ◌*◌, ◌/◌, ◌%◌, ◌^◌, ◌<◌, ◌≤◌, length};
ghost use Rattle.scrypt_kernel.specs.{AddsRow, AreCountedAs, AreWalkLens, IsFilled, IsRowLen, mixed_in, part};

use crate::CoreCount;
use crate::block_mix::mix;
use crate::memory::TableMemory;
use crate::order::OrderedBlocks;
use crate::parts::Parts;
use crate::words::part;

/// Step 2: for i = 0 to N - 1 do V[i] = X, X = scryptBlockMix (X).
///
/// X is `x` in the order `O`. The contents of `next` after the call are unspecified.
pub(crate) fn fill<O: OrderedBlocks, M: TableMemory>(
    rows: &mut M,
    x: &mut [u32],
    next: &mut [u32],
    len: usize,
    log_n: u8,
    s: u8,
    cores: &mut CoreCount,
)
    requires lens { (spare_len : ℕ)
        × AreWalkLens O.count len log_n s (length x.old) (length next.old) spare_len (2 ^ (log_n - s)
        * (O.count * len)) }
    requires room { 2 ^ (log_n - s) * (O.count * len) ≤ M.room rows.old }
    ensures room { M.room rows.old ≤ M.room rows.new }
    ensures filled { IsFilled O.pivot O.inverse_pivot O.count len log_n s x.old (M.words rows.new) x.new }
    ensures counted { AreCountedAs O.diagonal (2 ^ log_n * (O.count * (2 * (len / 32)))) cores.old cores.new }
{
    rows.write(0, x);
    let last = (1usize << (log_n - s)) - 1;
    'rows: for m in 0..last {
        write_next::<O, M>(rows, m, len, s, x, next, cores);
    }
    recompute::<O>(
        part(x.len(), rows.words(), last),
        len,
        1usize << s,
        x,
        next,
        cores,
    );
}

// Writes the row that is `2^s` rows after the kept row `m`, as the kept row after it. The contents
// of `x` and `next` after the call are unspecified.
#[inline(always)]
fn write_next<O: OrderedBlocks, M: TableMemory>(
    rows: &mut M,
    m: usize,
    len: usize,
    s: u8,
    x: &mut [u32],
    next: &mut [u32],
    cores: &mut CoreCount,
)
    requires row { IsRowLen len }
    requires chunks { length x.old ≡ O.count * len }
    requires scratch { length next.old ≡ length x.old }
    requires small { s ≤ 56 }
    requires last { (m + 1) * (O.count * len) ≤ length (M.words rows.old) }
    requires room { (m + 2) * (O.count * len) ≤ M.room rows.old }
    ensures words { AddsRow
        (mixed_in O.pivot O.inverse_pivot (2 ^ s)) O.count len m (M.words rows.old) (M.words rows.new) }
    ensures room { M.room rows.old ≤ M.room rows.new }
    ensures counted { AreCountedAs O.diagonal (2 ^ s * (O.count * (2 * (len / 32)))) cores.old cores.new }
{
    if s == 0 {
        rows.mix_next::<O>(m, len, cores);
    } else {
        recompute::<O>(
            part(x.len(), rows.words(), m),
            len,
            1usize << s,
            x,
            next,
            cores,
        );
        rows.write(m * x.len() + x.len(), x);
    }
}

/// Computes the row that is `n` rows after the row `kept`: `x` becomes `kept` after `n` block
/// mixes.
///
/// `n` is at least 1. The contents of `next` after the call are unspecified.
pub(crate) fn recompute<O: OrderedBlocks>(
    kept: &[u32],
    len: usize,
    n: usize,
    x: &mut [u32],
    next: &mut [u32],
    cores: &mut CoreCount,
)
    requires count { 0 < n }
    requires row { IsRowLen len }
    requires chunks { length kept.now ≡ O.count * len }
    requires same { length x.old ≡ length kept.now }
    requires scratch { length next.old ≡ length kept.now }
    ensures value { (k : ℕ) → k < O.count
        → part len x.new k ≡ mixed_in O.pivot O.inverse_pivot n (part len kept.now k) }
    ensures counted { AreCountedAs O.diagonal (n * (O.count * (2 * (len / 32)))) cores.old cores.new }
{
    if n % 2 == 0 {
        mix_row::<O>(kept, next, len, cores);
        mix_row::<O>(next, x, len, cores);
    } else {
        mix_row::<O>(kept, x, len, cores);
    }
    // An even number of block mixes is left, which end in `x`.
    'pairs: for _k in 0..(n - 1) / 2 {
        mix_row::<O>(x, next, len, cores);
        mix_row::<O>(next, x, len, cores);
    }
}

// The row after the row `x`.
#[inline(always)]
#[tactic(auto, using(crate::proofs::RoMixFacts::one_mix))]
fn mix_row<O: OrderedBlocks>(x: &[u32], next: &mut [u32], len: usize, cores: &mut CoreCount)
    requires row { IsRowLen len }
    requires chunks { length x.now ≡ O.count * len }
    requires same { length next.old ≡ length x.now }
    ensures value { (k : ℕ) → k < O.count
        → part len next.new k ≡ mixed_in O.pivot O.inverse_pivot 1 (part len x.now k) }
    ensures counted { AreCountedAs O.diagonal (O.count * (2 * (len / 32))) cores.old cores.new }
{
    mix::<O, Parts<'_>>(&Parts::of(x, len, O::count()), next, len, cores);
}
