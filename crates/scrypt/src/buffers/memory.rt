// The memory of a derivation: the part of the caller's buffers that it uses, or an [`Allocation`].

ghost use Rattle.std.specs.Prelude.{◌≡◌, ◌⊎◌, ◌↔◌, ◌*◌, ◌<◌, length, IfOk, IfSome, IsSome, IsTrue, None};
ghost use Rattle.scrypt_kernel.specs.Memory.{allocated_room, buffer_room};
ghost use Rattle.scrypt.specs.Terms.{HasTables, IsDone, IsReady, IsSpent, IsWidth, are_enough};
ghost use Rattle.scrypt.specs.Terms.{chunks_bytes, interleaved_chunks, scratch_words, table_words, tables_within};
ghost use Rattle.scrypt.specs.Terms.{workspace_of};

use super::lens::{BufferLens, interleaved_chunks};
use crate::size::{Size, index, room};
use crate::{CoreCount, Params};
use scrypt_kernel::memory::{Allocated, Buffer};
use std::alloc::{AllocError, Global};

// Returns how many of `count` chunks are interleaved in these buffers, or `None` if a buffer is too
// short for them.
#[tactic(auto, using(crate::proofs::CostFacts::width_of_part, std::proofs::lemmas::Bool::Decides::nat_tests), unfolding(crate::specs::InBuffers::are_enough))]
fn width_in(
    params: &Params,
    count: u32,
    chunks: &[u8],
    table: &[u32],
    scratch: &[u32],
) -> Option<usize>
    requires some { 0 < count }
    ensures enough { IsSome result
        ↔ IsTrue (are_enough (record params.now { p = count }) chunks.now table.now scratch.now) }
    ensures width { IfSome result
        (λ w. IsWidth params.now.log_n params.now.r count w chunks.now table.now scratch.now) }
{
    let width = interleaved_chunks(params, count as usize, table.len(), scratch.len());
    let chunk_len = 128 * u128::from(params.r());
    if width == 0 || u128::from(count) * chunk_len > chunks.len() as u128 {
        return None;
    }
    Some(width)
}

/// The memory that derivations use: all chunks, memory for the rows of `width` tables, `width`
/// scratches, so that `width` chunks are interleaved, and the count of cores.
#[derive(Drop)]
pub(crate) struct ActiveBuffers<'a, M> {
    pub(crate) width: usize,
    pub(crate) chunks: &'a mut [u8],
    pub(crate) rows: &'a mut M,
    pub(crate) scratch: &'a mut [u32],
    pub(crate) cores: &'a mut CoreCount,
}

impl<'a, M> ActiveBuffers<'a, M> {
    pub(crate) fn new(
        width: usize,
        chunks: &'a mut [u8],
        rows: &'a mut M,
        scratch: &'a mut [u32],
        cores: &'a mut CoreCount,
    ) -> ActiveBuffers<'a, M>
        ensures value { result ≡ record {
          width = width;
          chunks = chunks.entry;
          rows = rows.entry;
          scratch = scratch.entry;
          cores = cores.entry;
        } }
    {
        ActiveBuffers {
            width,
            chunks,
            rows,
            scratch,
            cores,
        }
    }
}

/// Calls `derive` with `output` and with the front of the caller's buffers, the part that a
/// derivation of `count` chunks uses. Returns the result of `derive`, or `None`, and then changes
/// nothing, exactly if a buffer is too short.
pub(crate) fn with_prefix<V, T, F: FnOnce(&mut ActiveBuffers<'_, Buffer<'_>>, &mut [V]) -> T>(
    params: &Params,
    count: u32,
    chunks: &mut [u8],
    table: &mut [u32],
    scratch: &mut [u32],
    cores: &mut CoreCount,
    output: &mut [V],
    derive: F,
) -> Option<T>
    requires some { 0 < count }
    requires callable { (used : _) (shown : _)
        → IsReady buffer_room params.now.log_n 0 params.now.r count used.now → shown.now ≡ output.old
        → F.pre derive used shown }
    requires spends { (used : _) (shown : _) (made : T) (after : _) (left : _)
        → IsReady buffer_room params.now.log_n 0 params.now.r count used.now
        → F.post derive used shown made after left → IsSpent buffer_room used.now after.now }
    ensures exact { IsSome result
        ↔ IsTrue (are_enough (record params.now { p = count }) chunks.old table.old scratch.old) }
    ensures made { IfSome result (λ made. (used : _) × (shown : _) × (after : _) × (left : _)
        × IsReady buffer_room params.now.log_n 0 params.now.r count used.now
        × (used.now.cores.now ≡ cores.old) × (after.now.cores.now ≡ cores.new) × (shown.now ≡ output.old)
        × (left.now ≡ output.new) × F.post derive used shown made after left) }
    ensures done { IsSome result → IsDone (record params.now { p = count })
        (workspace_of chunks.old table.old scratch.old) (workspace_of chunks.new table.new scratch.new) }
    ensures unchanged { result ≡ None
        → (output.new ≡ output.old) × (cores.new ≡ cores.old)
        × (workspace_of chunks.new table.new scratch.new ≡ workspace_of chunks.old table.old scratch.old) }
{
    let width = width_in(params, count, chunks, table, scratch)?;
    let lens = BufferLens::for_tables(params, width);
    let (chunks, _) = chunks.split_at_mut(count as usize * (128 * params.r() as usize));
    let (table, _) = table.split_at_mut(index(lens.table));
    let (scratch, _) = scratch.split_at_mut(index(lens.scratch));
    let mut rows = Buffer::new(table);
    let mut used = ActiveBuffers::new(width, chunks, &mut rows, scratch, cores);
    Some(derive(&mut used, output))
}

/// Buffers of one derivation, whose table grows while it is filled.
#[derive(Drop)]
pub(crate) struct Allocation {
    pub(crate) chunks: Vec<u8>,
    pub(crate) table: Allocated,
    pub(crate) scratch: Vec<u32>,
}

impl Allocation {
    /// Allocates the chunks, the table and the scratch, in this order. The table is empty, and
    /// grows within its capacity.
    pub(crate) fn allocate(alloc: Global, lens: &BufferLens) -> Result<Allocation, AllocError>
        ensures chunks { IfOk result (λ own. length own.chunks.items ≡ lens.now.chunks) }
        ensures table { IfOk result (λ own. allocated_room own.table ≡ lens.now.table) }
        ensures scratch { IfOk result (λ own. length own.scratch.items ≡ lens.now.scratch) }
    {
        let mut chunks = Vec::with_capacity(alloc, room(lens.chunks)?)?;
        let table = Allocated::new(Vec::with_capacity(alloc, room(lens.table)?)?);
        let scratch = vec![in alloc; 0u32; room(lens.scratch)?]?;
        // All three are allocated: now the chunks are written.
        chunks.resize_with(index(lens.chunks), || 0u8).unwrap();
        Ok(Allocation {
            chunks,
            table,
            scratch,
        })
    }

    /// Allocates [`BufferLens::tables_within`] tables and the same number of scratches, or one of
    /// each if that fails. Also returns this number.
    #[tactic(auto, using(crate::proofs::CostFacts::width_is), unfolding(crate::specs::Limits::tables_within))]
    pub(crate) fn allocate_within(
        alloc: Global,
        params: &Params,
        max_mem: Size,
    ) -> Result<(usize, Allocation), AllocError>
        ensures chunks { IfOk result (λ got. length got.1.chunks.items ≡ chunks_bytes params.now.r params.now.p) }
        ensures memory { IfOk result (λ got. HasTables params.now.log_n 0 params.now.r got.0
            (allocated_room got.1.table) (length got.1.scratch.items)) }
        ensures width { IfOk result (λ got. (got.0 ≡ tables_within max_mem params.now) ⊎ (got.0 ≡ 1)) }
        ensures table { IfOk result
            (λ got. allocated_room got.1.table ≡ got.0 * table_words params.now.log_n params.now.r) }
        ensures scratch { IfOk result (λ got. length got.1.scratch.items ≡ got.0 * scratch_words params.now.r) }
        ensures used { IfOk result (λ got. got.0
            ≡ interleaved_chunks params.now.log_n params.now.r params.now.p (allocated_room got.1.table)
            (length got.1.scratch.items)) }
    {
        params.expose_invariant();
        let width = BufferLens::tables_within(params, max_mem);
        if width > 1
            && let Ok(own) = Allocation::allocate(alloc, &BufferLens::for_tables(params, width))
        {
            return Ok((width, own));
        }
        Ok((1, Allocation::allocate(alloc, &BufferLens::of(params))?))
    }
}
