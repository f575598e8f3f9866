// The lengths of the buffers of a derivation.

ghost use Rattle.std.specs.Prelude.{◌≡◌, ◌↔◌, ◌+◌, ◌-◌, ◌*◌, ◌<◌, ◌≤◌, IfSome, IsSome};
ghost use Rattle.scrypt.specs.Terms.{AreMostTables, HasTables, chunks_bytes, interleaved_chunks, scratch_words};
ghost use Rattle.scrypt.specs.Terms.{table_words, tables_within, thin_scratch_words};

use crate::Params;
use crate::size::{Size, index};

/// The lengths of the three buffers of a derivation.
#[derive(Clone, Copy, Debug, PartialEq, Eq)]
pub struct BufferLens {
    /// The length of the chunks in bytes: `128 * r * p`.
    pub chunks: Size,
    /// The length of the table in words: `32 * r * N` for one whole table.
    pub table: Size,
    /// The length of the scratch in words: `64 * r` for one whole table.
    pub scratch: Size,
}

impl BufferLens {
    /// Returns the lengths for [`scrypt_with_buffers`](crate::scrypt_with_buffers) with these
    /// parameters, one chunk at a time.
    pub fn of(params: &Params) -> BufferLens
        ensures chunks { result.chunks ≡ chunks_bytes params.now.r params.now.p }
        ensures table { result.table ≡ table_words params.now.log_n params.now.r }
        ensures scratch { result.scratch ≡ scratch_words params.now.r }
    {
        BufferLens::with_rows(params, params.log_n(), 2)
    }

    /// Returns the lengths for interleaving `tables` chunks, at most four: the table and the
    /// scratch are `tables` times as long as [`BufferLens::of`] returns. With a `p` of 2
    /// or more, more tables take less time: with AVX2 two take a little more than half of the
    /// time, and four less than half (docs/BENCHMARKS.md).
    pub fn for_tables(params: &Params, tables: usize) -> BufferLens
        requires few { tables ≤ 4 }
        ensures chunks { result.chunks ≡ chunks_bytes params.now.r params.now.p }
        ensures table { result.table ≡ tables * table_words params.now.log_n params.now.r }
        ensures scratch { result.scratch ≡ tables * scratch_words params.now.r }
    {
        let one = BufferLens::of(params);
        params.expose_invariant();
        BufferLens {
            chunks: one.chunks,
            table: tables as Size * one.table,
            scratch: tables as Size * one.scratch,
        }
    }

    /// Returns the number of tables for a derivation whose three buffers may have `max_mem`
    /// bytes together: as many as fit, at most four and at most `p`, but one even if it does not
    /// fit. [`BufferLens::for_tables`] returns the lengths.
    #[tactic(auto, unfolding(crate::specs::Limits::tables_within))]
    pub fn tables_within(params: &Params, max_mem: Size) -> usize
        ensures exact { result ≡ tables_within max_mem params.now }
        ensures some { 0 < result }
        ensures few { result ≤ 4 }
        ensures most { AreMostTables max_mem params.now result }
    {
        let one = BufferLens::of(params);
        params.expose_invariant();
        let each = 4 * one.table as u128 + 4 * one.scratch as u128;
        let room = (max_mem as u128).saturating_sub(one.chunks as u128);
        let most = u128::from(params.p().min(4));
        (room / each).min(most).max(1) as usize
    }

    /// Returns the lengths for [`scrypt_thin`](crate::scrypt_thin) with a table that keeps one row
    /// in `2^s`: the table has `32 * r * 2^(log_n - s)` words, and the scratch `96 * r`. Returns
    /// `None` if `s` is above `log_n`.
    pub fn thin(params: &Params, s: u8) -> Option<BufferLens>
        ensures exact { IsSome result ↔ (s ≤ params.now.log_n) }
        ensures chunks { IfSome result (λ lens. lens.chunks ≡ chunks_bytes params.now.r params.now.p) }
        ensures table { IfSome result (λ lens. lens.table ≡ table_words (params.now.log_n - s) params.now.r) }
        ensures scratch { IfSome result (λ lens. lens.scratch ≡ thin_scratch_words params.now.r) }
    {
        if s > params.log_n() {
            return None;
        }
        Some(BufferLens::with_rows(params, params.log_n() - s, 3))
    }

    /// Returns the number of bytes of the three buffers together. A word has four bytes.
    pub fn bytes(&self) -> u128
        ensures value { result ≡ self.now.chunks + 4 * self.now.table + 4 * self.now.scratch }
    {
        self.chunks as u128 + 4 * self.table as u128 + 4 * self.scratch as u128
    }

    // The lengths with a table of `2^log_rows` rows, and with a scratch of `scratch_rows` rows.
    #[tactic(auto, using(crate::proofs::AcceptedFacts::small_lens))]
    fn with_rows(params: &Params, log_rows: u8, scratch_rows: usize) -> BufferLens
        requires fewer { log_rows ≤ params.now.log_n }
        requires few { scratch_rows ≤ 3 }
        ensures chunks { result.chunks ≡ chunks_bytes params.now.r params.now.p }
        ensures table { result.table ≡ table_words log_rows params.now.r }
        ensures scratch { result.scratch ≡ scratch_rows * (32 * params.now.r) }
    {
        let row = 32 * params.r() as Size;
        BufferLens {
            chunks: params.p() as Size * (4 * row),
            table: (Size::from(1u8) << log_rows) * row,
            scratch: scratch_rows as Size * row,
        }
    }
}

/// Returns how many of `count` chunks are interleaved with a table and a scratch of these lengths
/// in words: at most four, each with its own table and scratch.
#[tactic(auto, using(crate::proofs::CostFacts::rooms), unfolding(crate::specs::Workspace::interleaved_chunks))]
pub(crate) fn interleaved_chunks(
    params: &Params,
    count: usize,
    table: usize,
    scratch: usize,
) -> usize
    ensures exact { result ≡ interleaved_chunks params.now.log_n params.now.r count table scratch }
    ensures some { (0 < result)
        ↔ ((0 < count) × (table_words params.now.log_n params.now.r ≤ table)
        × (scratch_words params.now.r ≤ scratch)) }
    ensures memory { 0 < result → HasTables params.now.log_n 0 params.now.r result table scratch }
{
    let one = BufferLens::of(params);
    params.expose_invariant();
    4usize
        .min(count)
        .min(index(table as Size / one.table))
        .min(index(scratch as Size / one.scratch))
}
