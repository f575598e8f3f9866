// The derived key (RFC 7914, section 6).

ghost use Rattle.std.specs.Prelude.{◌≡◌, ◌↔◌, ◌-◌, ◌*◌, ◌<◌, ◌≤◌, length, replicate, IsOk, IsTrue, IsErrOf, OnOk, OnErr};
ghost use Rattle.scrypt.specs.Terms.{AreCompressed, AreCounted, AreHashed, IsDerived, IsDone, IsReady, IsSpent};
ghost use Rattle.scrypt.specs.Terms.{chunks_bytes, cost, cost_by, derived_key, hash_cost, is_output_len};
ghost use Rattle.scrypt.specs.Terms.{max_output_len, pbkdf2, pbkdf2_cost, scratch_words, table_words, thin_cost};
ghost use Rattle.scrypt.specs.Terms.{thin_scratch_words, workspace_of};
ghost use Rattle.scrypt.specs.declared.errors.DeriveError.TheVariants.{InvalidOutputLen as BadLength};

pub(crate) mod mixing;

use crate::buffers::memory::{ActiveBuffers, Allocation, with_prefix};
use crate::derivation::mixing::mix_all;
use crate::size::Size;
use crate::{Backend, CoreCount, DeriveError, InvalidOutputLen, Params, Target};
use scrypt_kernel::memory::{Allocated, Buffer, TableMemory};
use scrypt_kernel::pbkdf2::pbkdf2_counted;
use std::alloc::Global;

/// The maximum length of an output in bytes (RFC 7914, section 6: `dkLen`).
const MAX_OUTPUT_LEN: Size = ((1 << 32) - 1) * 32;

/// Returns whether an output of `len` bytes can be derived: `len` is from 1 to `(2^32 - 1) * 32`,
/// which is 137438953440 (RFC 7914, section 6).
#[tactic(auto, using(std::proofs::lemmas::Bool::Decides::nat_tests), unfolding(crate::specs::Accepted::is_output_len))]
pub fn output_len_ok(len: usize) -> bool
    ensures exact { result ≡ is_output_len len }
{
    let len = len as Size;
    (1..=MAX_OUTPUT_LEN).contains(&len)
}

/// Writes the scrypt key of `password` and `salt` to `output` (RFC 7914, section 6).
///
/// Allocates three buffers of the lengths of [`BufferLens::of`](crate::BufferLens::of): the chunks,
/// the table and the scratch, in this order and before the first core. A length of a stored key in
/// `params` is ignored.
///
/// Returns `InvalidOutputLen` exactly if the length of `output` is not allowed
/// ([`output_len_ok`](crate::output_len_ok)), and otherwise `OutOfMemory` if an allocation fails.
/// On an error `output` is unchanged.
pub fn scrypt(
    alloc: Global,
    password: &[u8],
    salt: &[u8],
    params: &Params,
    output: &mut [u8],
) -> Result<(), DeriveError>
    ensures length { IsErrOf result BadLength ↔ ¬ IsTrue (is_output_len (length output.old)) }
    ensures value { OnOk result (output.new
        ≡ derived_key password.now salt.now params.now.log_n params.now.r params.now.p (length output.old)) }
    ensures refused { OnErr result (output.new ≡ output.old) }
{
    let mut cores = CoreCount::new();
    scrypt_counted(alloc, password, salt, params, output, &mut cores)
}

/// Derives the key as [`scrypt`] does, and counts the `4 * N * r * p` Salsa20/8 cores and the
/// blocks that SHA-256 compresses.
///
/// On an error the count is unchanged too.
pub fn scrypt_counted(
    alloc: Global,
    password: &[u8],
    salt: &[u8],
    params: &Params,
    output: &mut [u8],
    cores: &mut CoreCount,
) -> Result<(), DeriveError>
    ensures length { IsErrOf result BadLength ↔ ¬ IsTrue (is_output_len (length output.old)) }
    ensures value { OnOk result (output.new
        ≡ derived_key password.now salt.now params.now.log_n params.now.r params.now.p (length output.old)) }
    ensures counted { OnOk result (AreCounted (cost params.now.log_n params.now.r params.now.p) cores.old cores.new) }
    ensures hashed { OnOk result (AreCompressed (hash_cost (length password.now)
        (length salt.now) params.now.r params.now.p (length output.old)) cores.old cores.new) }
    ensures refused { OnErr result (output.new ≡ output.old) }
    ensures uncounted { OnErr result (cores.new ≡ cores.old) }
{
    // A limit of 0 bytes selects one table.
    scrypt_with_max_mem::<Target>(alloc, password, salt, params, 0, output, cores)
}

/// Derives the key as [`scrypt_counted`] does, by the backend `W`, in buffers that may have
/// `max_mem` bytes together: it allocates
/// [`BufferLens::tables_within`](crate::BufferLens::tables_within) tables and interleaves that many
/// chunks. If this allocation fails, it uses one table.
///
/// Returns `OutOfMemory` if an allocation for one table fails.
#[tactic(auto, using(crate::proofs::AcceptedFacts::output_len_bound))]
pub fn scrypt_with_max_mem<W: Backend>(
    alloc: Global,
    password: &[u8],
    salt: &[u8],
    params: &Params,
    max_mem: Size,
    output: &mut [u8],
    cores: &mut CoreCount,
) -> Result<(), DeriveError>
    ensures length { IsErrOf result BadLength ↔ ¬ IsTrue (is_output_len (length output.old)) }
    ensures derived { OnOk result (IsDerived params.now password.now salt.now
        (cost_by params.now) output.old output.new cores.old cores.new) }
    ensures refused { OnErr result (output.new ≡ output.old) }
    ensures uncounted { OnErr result (cores.new ≡ cores.old) }
{
    if !output_len_ok(output.len()) {
        return Err(DeriveError::InvalidOutputLen);
    }
    let (w, mut own) = Allocation::allocate_within(alloc, params, max_mem)?;
    let mut used = ActiveBuffers::new(w, &mut own.chunks, &mut own.table, &mut own.scratch, cores);
    derive_in::<Allocated, W>(password, salt, params, 0, &mut used, output);
    Ok(())
}

/// Writes the scrypt key of `password` and `salt` to `output`, in the caller's buffers
/// (RFC 7914, section 6).
///
/// Each buffer has at least its length of [`BufferLens::of`](crate::BufferLens::of), and only its
/// front is used: up to four chunks are interleaved, each with its own part of the table and of the
/// scratch, if these are long enough ([`BufferLens::for_tables`](crate::BufferLens::for_tables)).
/// The contents of the buffers before the call do not matter. After it the used parts of `chunks`
/// and `scratch` are zeros, the used part of `table` is unspecified, and the rest is unchanged.
/// `cores` counts the `4 * N * r * p` cores, and the blocks that SHA-256 compresses. Does not
/// allocate.
///
/// Returns `InvalidOutputLen`, and changes nothing, exactly if the length of `output` is
/// not allowed ([`output_len_ok`](crate::output_len_ok)).
#[tactic(auto, using(crate::proofs::AcceptedFacts::output_len_bound))]
pub fn scrypt_with_buffers(
    password: &[u8],
    salt: &[u8],
    params: &Params,
    chunks: &mut [u8],
    table: &mut [u32],
    scratch: &mut [u32],
    output: &mut [u8],
    cores: &mut CoreCount,
) -> Result<(), InvalidOutputLen>
    requires chunks { chunks_bytes params.now.r params.now.p ≤ length chunks.old }
    requires table { table_words params.now.log_n params.now.r ≤ length table.old }
    requires scratch { scratch_words params.now.r ≤ length scratch.old }
    ensures allowed { IsOk result ↔ IsTrue (is_output_len (length output.old)) }
    ensures derived { OnOk result (IsDerived params.now password.now salt.now
        (cost_by params.now) output.old output.new cores.old cores.new) }
    ensures done { OnOk result (IsDone params.now (workspace_of chunks.old table.old scratch.old)
        (workspace_of chunks.new table.new scratch.new)) }
    ensures refused { OnErr result (output.new ≡ output.old) }
    ensures unchanged { OnErr result (workspace_of chunks.new table.new scratch.new
        ≡ workspace_of chunks.old table.old scratch.old) }
    ensures uncounted { OnErr result (cores.new ≡ cores.old) }
{
    if !output_len_ok(output.len()) {
        return Err(InvalidOutputLen);
    }
    params.expose_invariant();
    let derive = |used: &mut ActiveBuffers<'_, Buffer<'_>>, output: &mut [u8]| {
        derive_in::<Buffer<'_>, Target>(password, salt, params, 0, used, output)
    };
    let p = params.p();
    // The buffers are long enough.
    with_prefix(params, p, chunks, table, scratch, cores, output, derive).unwrap();
    Ok(())
}

/// Writes the scrypt key of `password` and `salt` to `output`, with a smaller table
/// (RFC 7914, section 6).
///
/// This is a time-memory trade-off: the table keeps each row whose number is a multiple of `2^s`,
/// and any other row is recomputed whenever it is needed. So the table has `2^s` times fewer words,
/// and there may be more than `4 * N * r * p` cores: `cores` counts them, and the blocks that
/// SHA-256 compresses. How many rows are recomputed depends on the password and the salt, so,
/// unlike with the whole table, the time of a call reveals something about them. Does not allocate.
///
/// The buffers have the lengths of [`BufferLens::thin`](crate::BufferLens::thin): `chunks` in
/// bytes, `table` and `scratch` in words. `s` is at most `log_n`. The contents of the buffers
/// before the call do not matter. After it `chunks` and `scratch` are zeros, and the contents of
/// `table` are unspecified.
///
/// Returns `InvalidOutputLen`, and changes nothing, exactly if the length of `output` is
/// not allowed ([`output_len_ok`](crate::output_len_ok)).
#[tactic(auto, using(crate::proofs::AcceptedFacts::output_len_bound))]
pub fn scrypt_thin(
    password: &[u8],
    salt: &[u8],
    params: &Params,
    s: u8,
    chunks: &mut [u8],
    table: &mut [u32],
    scratch: &mut [u32],
    output: &mut [u8],
    cores: &mut CoreCount,
) -> Result<(), InvalidOutputLen>
    requires spacing { s ≤ params.now.log_n }
    requires chunks { length chunks.old ≡ chunks_bytes params.now.r params.now.p }
    requires table { length table.old ≡ table_words (params.now.log_n - s) params.now.r }
    requires scratch { length scratch.old ≡ thin_scratch_words params.now.r }
    ensures allowed { IsOk result ↔ IsTrue (is_output_len (length output.old)) }
    ensures derived { OnOk result (IsDerived params.now password.now salt.now
        (thin_cost password.now salt.now params.now.log_n params.now.r params.now.p s)
        output.old output.new cores.old cores.new) }
    ensures wiped { OnOk result ((chunks.new ≡ replicate (length chunks.old) 0)
        × (scratch.new ≡ replicate (length scratch.old) 0)) }
    ensures refused { OnErr result (output.new ≡ output.old) }
    ensures unchanged { OnErr result (workspace_of chunks.new table.new scratch.new
        ≡ workspace_of chunks.old table.old scratch.old) }
    ensures uncounted { OnErr result (cores.new ≡ cores.old) }
{
    if !output_len_ok(output.len()) {
        return Err(InvalidOutputLen);
    }
    params.expose_invariant();
    let mut rows = Buffer::new(table);
    let mut used = ActiveBuffers::new(1, chunks, &mut rows, scratch, cores);
    derive_in::<Buffer<'_>, Target>(password, salt, params, s, &mut used, output);
    Ok(())
}

/// Steps 1 to 3, in any memory, with a table that keeps one row in `2^s`. Afterwards the chunks and
/// the scratch are zeros.
#[tactic(auto, unfolding(crate::specs::Key::derived_key))]
pub(crate) fn derive_in<M: TableMemory, W: Backend>(
    password: &[u8],
    salt: &[u8],
    params: &Params,
    s: u8,
    used: &mut ActiveBuffers<'_, M>,
    output: &mut [u8],
)
    requires ready { IsReady M.room params.now.log_n s params.now.r params.now.p used.old }
    requires length { length output.old ≤ max_output_len }
    ensures spent { IsSpent M.room used.old used.new }
    ensures derived { IsDerived params.now password.now salt.now
        (thin_cost password.now salt.now params.now.log_n params.now.r params.now.p s)
        output.old output.new used.old.cores.now used.new.cores.now }
    ensures whole { s ≡ 0 → AreCounted (cost_by params.now) used.old.cores.now used.new.cores.now }
{
    derive_chunks(password, salt, params, used.chunks, used.cores);
    mix_all::<M, W>(params, s, params.p() as usize, used);
    // Step 3: DK, with B as salt. B is borrowed mutably, because the prover does not support a
    // second shared borrow besides the borrow of the count.
    let mixed = &mut *used.chunks;
    pbkdf2_counted(password, mixed, output, used.cores);
    used.chunks.fill(0);
    used.scratch.fill(0);
}

/// Step 1: `chunks` becomes B, which has `p` chunks.
#[tactic(auto, using(crate::proofs::AcceptedFacts::small_lens))]
pub(crate) fn derive_chunks(
    password: &[u8],
    salt: &[u8],
    params: &Params,
    chunks: &mut [u8],
    cores: &mut CoreCount,
)
    requires chunks { length chunks.old ≡ chunks_bytes params.now.r params.now.p }
    ensures value { chunks.new ≡ pbkdf2 password.now salt.now (chunks_bytes params.now.r params.now.p) }
    ensures counted { AreHashed (pbkdf2_cost (length password.now)
        (length salt.now) (chunks_bytes params.now.r params.now.p)) cores.old cores.new }
{
    params.expose_invariant();
    pbkdf2_counted(password, salt, chunks, cores);
}
