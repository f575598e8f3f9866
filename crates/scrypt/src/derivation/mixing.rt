// Step 2 of a derivation (RFC 7914, section 6): each chunk becomes its scryptROMix.

ghost use Rattle.std.specs.Prelude.{◌≡◌, ◌≢◌, ℕ, List, ◌+◌, ◌*◌, ◌<◌, ◌≤◌, length, true};
ghost use Rattle.scrypt.specs.Terms.{AreCountedAs, AreMixed, HasTables, IsKept, IsReady, cost, group_by, mixed_chunks};
ghost use Rattle.scrypt.specs.Terms.{next_group, part, thin_chunks_cost, words_of};
ghost use Rattle.scrypt.specs.Cost.{thin_ro_mix_cost};

use crate::buffers::memory::ActiveBuffers;
use crate::{Backend, Params};
use scrypt_kernel::memory::TableMemory;
use scrypt_kernel::order::OrderedBlocks;
use scrypt_kernel::order::diagonal::{Both, Diagonal, Scalars};
use scrypt_kernel::romix;
use std::simd::{u32x4, u32x8};

/// Replaces each of `count` chunks by its scryptROMix, interleaving at most `used.width` of them,
/// by the backend `W`. The chunks belong to one derivation or to several, all with the `N` and the
/// `r` of `params`. The table keeps one row in `2^s`.
#[tactic(auto, unfolding(crate::specs::Cost::extra_rows_of_chunks))]
pub(crate) fn mix_all<M: TableMemory, W: Backend>(
    params: &Params,
    s: u8,
    count: usize,
    used: &mut ActiveBuffers<'_, M>,
)
    requires ready { IsReady M.room params.now.log_n s params.now.r count used.old }
    ensures kept { IsKept M.room used.old used.new }
    ensures value { used.new.chunks.now ≡ mixed_chunks used.old.chunks.now params.now.log_n params.now.r count }
    ensures counted { AreCountedAs true
        (thin_chunks_cost used.old.chunks.now params.now.log_n params.now.r count s) used.old.cores.now
        used.new.cores.now }
    ensures whole { s ≡ 0
        → AreCountedAs true (cost params.now.log_n params.now.r count) used.old.cores.now used.new.cores.now }
{
    let mut i = 0;
    'groups: while i < count {
        let n = group_by::<W>(used.width, count - i);
        mix_interleaved::<M, W>(params, s, n, i, used);
        i += n;
    }
}

/// Returns the number of chunks in the next group of `W`, given the number of tables and of chunks
/// left.
#[tactic(auto, unfolding(crate::specs::Mixing::group_by))]
pub(crate) fn group_by<W: Backend>(tables: usize, left: usize) -> usize
    requires some { 0 < tables }
    requires left { 0 < left }
    ensures some { 0 < result }
    ensures within { result ≤ tables }
    ensures left { result ≤ left }
    ensures few { result ≤ W.most }
    ensures alone { W.scalar ≡ true → result ≢ 2 }
    ensures exact { result ≡ group_by W.most W.scalar tables left }
{
    let n = next_group(tables.min(W::max_interleave()), left);
    if n == 2 && W::is_scalar() { 1 } else { n }
}

// Returns the number of chunks in the next group. If three or more can be interleaved, no group of
// a single chunk is left over: groups of four and one would take longer than groups of three and
// two.
#[tactic(auto, unfolding(crate::specs::Mixing::next_group))]
fn next_group(width: usize, left: usize) -> usize
    requires some { 0 < width }
    requires left { 0 < left }
    ensures some { 0 < result }
    ensures within { result ≤ width }
    ensures left { result ≤ left }
    ensures together { 2 < width → 1 < left → 1 < result }
    ensures none_left_alone { 2 < width → left ≢ result + 1 }
    ensures exact { result ≡ next_group width left }
{
    if width > 2 && left - 1 == width {
        width - 1
    } else {
        width.min(left)
    }
}

// Mixes the `n` chunks from `i` on, interleaved.
fn mix_interleaved<M: TableMemory, W: Backend>(
    params: &Params,
    s: u8,
    n: usize,
    i: usize,
    used: &mut ActiveBuffers<'_, M>,
)
    requires few { n ≤ W.most }
    requires alone { W.scalar ≡ true → n ≢ 2 }
    requires inside { i * (128 * params.now.r) + n * (128 * params.now.r) ≤ length used.old.chunks.now }
    requires memory { HasTables params.now.log_n s params.now.r n
        (M.room used.old.rows.now) (length used.old.scratch.now) }
    ensures mixed { (b : List ℕ) → AreMixed b params.now.log_n params.now.r i used.old.chunks.now
        → AreMixed b params.now.log_n params.now.r (i + n) used.new.chunks.now }
    ensures kept { IsKept M.room used.old used.new }
    ensures counted { AreCountedAs true (n
        * thin_ro_mix_cost (words_of (part (128 * params.now.r) used.old.chunks.now i))
        params.now.log_n s params.now.r) used.old.cores.now used.new.cores.now }
{
    // A backend's results are constants, so that the compiler leaves out the groups that it never
    // mixes.
    let most = W::max_interleave();
    match n {
        1 if W::is_scalar() => mix_group::<Diagonal<Scalars>, M>(params, s, n, i, used),
        1 => mix_group::<Diagonal<u32x4>, M>(params, s, n, i, used),
        2 if !W::is_scalar() => mix_group::<Diagonal<u32x8>, M>(params, s, n, i, used),
        3 if most > 2 => mix_group::<Diagonal<Both<u32x8, u32x4>>, M>(params, s, n, i, used),
        4 if most > 3 => mix_group::<Diagonal<Both<u32x8, u32x8>>, M>(params, s, n, i, used),
        _ => unreachable!(),
    }
}

// Mixes the `n` chunks from `i` on, where `O` holds `n` blocks: B[i] = scryptROMix (r, B[i], N) for
// each.
fn mix_group<O: OrderedBlocks, M: TableMemory>(
    params: &Params,
    s: u8,
    n: usize,
    i: usize,
    used: &mut ActiveBuffers<'_, M>,
)
    requires group { n ≡ O.count }
    requires inside { i * (128 * params.now.r) + n * (128 * params.now.r) ≤ length used.old.chunks.now }
    requires memory { HasTables params.now.log_n s params.now.r n
        (M.room used.old.rows.now) (length used.old.scratch.now) }
    ensures mixed { (b : List ℕ) → AreMixed b params.now.log_n params.now.r i used.old.chunks.now
        → AreMixed b params.now.log_n params.now.r (i + n) used.new.chunks.now }
    ensures kept { IsKept M.room used.old used.new }
    ensures counted { AreCountedAs O.diagonal (n
        * thin_ro_mix_cost (words_of (part (128 * params.now.r) used.old.chunks.now i))
        params.now.log_n s params.now.r) used.old.cores.now used.new.cores.now }
{
    let r = params.r() as usize;
    let at = i * (128 * r);
    let len = n * (128 * r);
    romix::mix_chunks::<O, M>(
        &mut used.chunks[at..at + len],
        r,
        used.rows,
        used.scratch,
        params.log_n(),
        spacing::<O>(s),
        used.cores,
    );
}

// Returns `s`. For several chunks it is a constant, so that the compiler leaves out the code for a
// smaller table.
#[inline(always)]
fn spacing<O: OrderedBlocks>(s: u8) -> u8
    requires alone { 0 < s → O.count ≡ 1 }
    ensures { result ≡ s }
{
    if O::count() == 1 { s } else { 0 }
}
