//! scryptROMix (RFC 7914, section 5) in steps, in the caller's buffers: it can stop after any
//! number of mixes, and continue later.
//!
//! Each block mix of each chunk is one *mix*: the `N` of step 2, and then the `N` of step 3. The
//! state between two steps consists of the table, the scratch and the number of mixes that are
//! done.

ghost use Rattle.std.specs.Prelude.{◌≡◌, ℕ, ◌+◌, ◌-◌, ◌*◌, ◌/◌, ◌%◌, ◌^◌, ◌<◌, ◌≤◌, List, drop, length, max, min};
ghost use Rattle.scrypt_kernel.specs.{AreCountedAs, AreWalkLens, IsMixing, IsRowLen, all_mixes, bytes_of, chunk_words};
ghost use Rattle.scrypt_kernel.specs.{part, ro_mix, scratch_words, table_words, words_of};

use crate::CoreCount;
use crate::memory::mix_next;
use crate::order::OrderedBlocks;
use crate::table::recompute;
use crate::walk::take_steps;
use crate::words::{part, read_words, write_words};

/// Begins the scryptROMix of the `n` chunks of `b`, with words in the order `O`: no mix is done
/// yet.
///
/// For each chunk `b` has `128 * r` bytes, and `table` and `scratch` have at least `32 * r` words,
/// of which nothing after these is changed.
pub fn begin_chunks<O: OrderedBlocks>(
    n: usize,
    b: &[u8],
    r: usize,
    table: &mut [u32],
    scratch: &mut [u32],
)
    requires several { 0 < n }
    requires some { 0 < r }
    requires chunks { length b.now ≡ n * (128 * r) }
    requires room { n * (32 * r) ≤ length table.old }
    requires scratch { n * (32 * r) ≤ length scratch.old }
    ensures begun { (log_n : ℕ)
        → IsMixing O.pivot n (chunk_words r b.now) (32 * r) log_n 0 table.new scratch.new }
    ensures table_rest { drop (n * (32 * r)) table.new ≡ drop (n * (32 * r)) table.old }
    ensures scratch_rest { drop (n * (32 * r)) scratch.new ≡ drop (n * (32 * r)) scratch.old }
{
    let row_len = n * (32 * r);
    let x = &mut scratch[..row_len];
    // Step 1: X = B.
    read_words(b, x);
    O::shuffle_in(x);
    table[..row_len].copy_from_slice(x);
}

/// Does `count` more mixes of each chunk after the first `done`, or all that are left, and counts
/// their cores, `2 * r` each. `O` has a block for each chunk. Returns how many mixes are done then.
///
/// For each chunk `table` has at least `32 * r * N` words, and `scratch` at least `64 * r`, of which
/// nothing after these is changed. `log_n` is at most 56.
pub fn step_chunks<O: OrderedBlocks>(
    r: usize,
    table: &mut [u32],
    scratch: &mut [u32],
    log_n: u8,
    done: usize,
    count: usize,
    cores: &mut CoreCount,
) -> usize
    requires some { 0 < r }
    requires small { log_n ≤ 56 }
    requires done { done ≤ all_mixes log_n }
    requires room { O.count * table_words log_n r ≤ length table.old }
    requires scratch { O.count * scratch_words r ≤ length scratch.old }
    ensures done { result ≡ min (done + count) (all_mixes log_n) }
    ensures mixed { (b : ℕ → List ℕ) → IsMixing O.pivot O.count b (32 * r) log_n done table.old scratch.old
        → IsMixing O.pivot O.count b (32 * r) log_n result table.new scratch.new }
    ensures table_rest { drop (O.count * table_words log_n r) table.new ≡ drop (O.count * table_words log_n r) table.old }
    ensures scratch_rest { drop (O.count * scratch_words r) scratch.new ≡ drop (O.count * scratch_words r) scratch.old }
    ensures counted { AreCountedAs O.diagonal (min count (all_mixes log_n - done) * (O.count * (2 * r))) cores.old cores.new }
{
    let n = O::count();
    let len = 32 * r;
    let rows = 1usize << log_n;
    let end = done + count.min(2 * rows - done);
    let (x, rest) = scratch.split_at_mut(n * len);
    let next = &mut rest[..n * len];
    let at = fill_on::<O>(table, len, log_n, done, end, x, next, cores);
    // Step 3, as soon as the table is filled.
    if at < end {
        take_steps::<O>(x, table, next, &mut [], len, log_n, 0, end - at, cores);
    }
    end
}

// Step 2 from mix `done` on, up to `end`. The last mix puts X into `x`. Returns how many mixes are
// done then.
#[inline(always)]
fn fill_on<O: OrderedBlocks>(
    table: &mut [u32],
    len: usize,
    log_n: u8,
    done: usize,
    end: usize,
    x: &mut [u32],
    next: &mut [u32],
    cores: &mut CoreCount,
) -> usize
    requires lens { AreWalkLens O.count len log_n 0 (length x.old) (length next.old) 0 (length table.old) }
    requires order { done ≤ end }
    ensures done { result ≡ max done (min end (2 ^ log_n)) }
    ensures mixed { (b : ℕ → List ℕ) → IsMixing O.pivot O.count b len log_n done table.old x.old
        → IsMixing O.pivot O.count b len log_n result table.new x.new }
    ensures rest { drop (2 ^ log_n * (O.count * len)) table.new ≡ drop (2 ^ log_n * (O.count * len)) table.old }
    ensures counted { AreCountedAs O.diagonal ((result - done) * (O.count * (2 * (len / 32)))) cores.old cores.new }
{
    let to = done.max(end.min(1usize << log_n));
    'mixes: for m in done..to {
        if m + 1 < 1usize << log_n {
            mix_next::<O>(table, m, len, cores);
        } else {
            recompute::<O>(part(x.len(), table, m), len, 1, x, next, cores);
        }
    }
    to
}

/// Ends the scryptROMix of the `n` chunks: writes the mixed chunks to `b`, in place of the original
/// ones. It changes only the front of `scratch`, `32 * r` words for each.
pub fn end_chunks<O: OrderedBlocks>(n: usize, b: &mut [u8], r: usize, scratch: &mut [u32])
    requires several { 0 < n }
    requires some { 0 < r }
    requires chunks { length b.old ≡ n * (128 * r) }
    requires scratch { n * (32 * r) ≤ length scratch.old }
    ensures value { (b' : ℕ → List ℕ) → (log_n : ℕ) → (table : List ℕ)
        → IsMixing O.pivot n b' (32 * r) log_n (all_mixes log_n) table scratch.old
        → (k : ℕ) → k < n → part (128 * r) b.new k ≡ bytes_of (ro_mix (b' k) log_n) }
    ensures scratch_rest { drop (n * (32 * r)) scratch.new ≡ drop (n * (32 * r)) scratch.old }
{
    let x = &mut scratch[..n * (32 * r)];
    // Step 4: B' = X.
    O::shuffle_out(x);
    write_words(x, b);
}
