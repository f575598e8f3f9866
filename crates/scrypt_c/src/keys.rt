//! Keys, derived in allocated memory or in the caller's buffers.

ghost use Rattle.std.specs.Prelude.{◌≡◌, ◌≢◌, ◌⊎◌, ◌↔◌, length, IsSome, IfSome, IsTrue};
ghost use Rattle.scrypt.specs.Terms.{are_accepted, cost, hash_cost, thin_cost, workspace_of};
ghost use Rattle.scrypt_c.specs.{AreBuffers, HasKey, HasKeyIn, HasThinKey, IsSpacing, IsWork, bytes_that_pay, params_of};

use crate::statuses::{BUFFER_SIZE, INVALID_OUTPUT_LEN, INVALID_PARAMS, OK, OUT_OF_MEMORY};
use scrypt::{
    BufferLens, CoreCount, DeriveError, Params, Size, Target, output_len_ok, scrypt_thin,
    scrypt_with_buffers, scrypt_with_max_mem,
};
use std::alloc::Global;

/// Writes the scrypt key of `password` and `salt` to `output` (RFC 7914, section 6), and allocates
/// the memory for it.
///
/// Takes several tables, to interleave chunks, if that is faster: up to four, and no more than
/// `max_tables` or `p`. It takes several only if a table has at least 2^14 words, and if all
/// buffers together do not exceed `max_mem` bytes. If the allocation of several tables fails, it
/// uses one.
///
/// Returns `OK`, or the first of these: `INVALID_PARAMS` unless `log_n`, `r` and `p` are accepted,
/// `INVALID_OUTPUT_LEN` unless the output has 1 to 137438953440 bytes, and `OUT_OF_MEMORY` if an
/// allocation for one table fails. On an error the output is unchanged.
#[unsafe(no_mangle)]
pub extern "C" fn scrypt_kdf(
    alloc: Global,
    password: &[u8],
    salt: &[u8],
    log_n: u8,
    r: u32,
    p: u32,
    max_tables: usize,
    max_mem: Size,
    output: &mut [u8],
) -> i32
    ensures key { HasKey (IsTrue (are_accepted log_n r p)) OUT_OF_MEMORY password.now salt.now log_n r p
        output.old output.new result }
{
    let cores = &mut CoreCount::new();
    kdf(
        alloc, password, salt, log_n, r, p, max_tables, max_mem, output, cores,
    )
}

/// Does what [`scrypt_kdf`] does, and counts its cores and the blocks that SHA-256 compresses.
pub fn kdf(
    alloc: Global,
    password: &[u8],
    salt: &[u8],
    log_n: u8,
    r: u32,
    p: u32,
    max_tables: usize,
    max_mem: Size,
    output: &mut [u8],
    cores: &mut CoreCount,
) -> i32
    ensures key { HasKey (IsTrue (are_accepted log_n r p)) OUT_OF_MEMORY password.now salt.now log_n r p
        output.old output.new result }
    ensures work { IsWork (cost log_n r p) (hash_cost (length password.now) (length salt.now) r p (length output.old))
        cores.old cores.new result }
{
    let Ok(params) = Params::new(log_n, r, p) else {
        return INVALID_PARAMS;
    };
    let max_mem = bytes_that_pay(&params, max_tables, max_mem);
    match scrypt_with_max_mem::<Target>(alloc, password, salt, &params, max_mem, output, cores) {
        Ok(()) => OK,
        Err(DeriveError::InvalidOutputLen) => INVALID_OUTPUT_LEN,
        Err(DeriveError::OutOfMemory) => OUT_OF_MEMORY,
    }
}

// With fewer words in a table, interleaving is slower than one chunk at a time.
const MIN_INTERLEAVED_WORDS: Size = 1 << 14;

// Returns the bytes of the buffers with all tables that are worth using, or 0 to select one table.
#[tactic(auto, unfolding(crate::specs::Limits::bytes_that_pay))]
fn bytes_that_pay(params: &Params, max_tables: usize, max_mem: Size) -> Size
    ensures exact { result ≡ bytes_that_pay max_tables max_mem params.now }
{
    if BufferLens::of(params).table < MIN_INTERLEAVED_WORDS {
        return 0;
    }
    let tables = BufferLens::tables_within(params, max_mem).min(max_tables);
    let bytes = BufferLens::for_tables(params, tables).bytes();
    bytes.min(max_mem as u128) as Size
}

/// Writes the lengths of the buffers of a derivation with these parameters: for
/// `scrypt_kdf_with_buffers` if `s` is 0, and otherwise for `scrypt_kdf_thin` with this `s`. The
/// chunks are counted in bytes, and the table and the scratch in words of 4 bytes.
///
/// Returns `OK`, or `INVALID_PARAMS` unless `log_n`, `r` and `p` are accepted and `s` does not
/// exceed `log_n`. On an error the three lengths are unchanged.
#[unsafe(no_mangle)]
pub extern "C" fn scrypt_buffer_lens(
    log_n: u8,
    r: u32,
    p: u32,
    s: u8,
    chunks: &mut Size,
    table: &mut Size,
    scratch: &mut Size,
) -> i32
    ensures exact { (result ≡ OK) ↔ (IsTrue (are_accepted log_n r p) × IsSpacing log_n s) }
    ensures lens { result ≡ OK → AreBuffers log_n r p s chunks.new table.new scratch.new }
    ensures status { (result ≡ OK) ⊎ (result ≡ INVALID_PARAMS) }
    ensures refused { result ≢ OK → (chunks.new ≡ chunks.old) × (table.new ≡ table.old) × (scratch.new ≡ scratch.old) }
{
    let Some((_, lens)) = params_and_lens(log_n, r, p, s) else {
        return INVALID_PARAMS;
    };
    *chunks = lens.chunks;
    *table = lens.table;
    *scratch = lens.scratch;
    OK
}

/// Does what `scrypt_kdf` does, in the caller's buffers, and allocates nothing.
///
/// Returns `OK`, or the first of these: `INVALID_PARAMS`, `INVALID_OUTPUT_LEN`, and `BUFFER_SIZE`
/// if a buffer is shorter than `scrypt_buffer_lens` returns with `s = 0`.
///
/// Chunks are interleaved if the buffers are longer: up to four, no more than `p`, and no more than
/// both the table and the scratch have capacity for. The derivation uses a prefix of each buffer:
/// the length that `scrypt_buffer_lens` returns, which for the table and the scratch is multiplied
/// by the number of interleaved chunks. The initial contents of the buffers do not matter. After
/// `OK` the used prefix of the chunks and of the scratch is zeros, that of the table is unspecified,
/// and nothing after it has changed. On an error the buffers and the output are unchanged.
#[unsafe(no_mangle)]
pub extern "C" fn scrypt_kdf_with_buffers(
    password: &[u8],
    salt: &[u8],
    log_n: u8,
    r: u32,
    p: u32,
    output: &mut [u8],
    chunks: &mut [u8],
    table: &mut [u32],
    scratch: &mut [u32],
) -> i32
    ensures key { HasKeyIn password.now salt.now log_n r p output.old output.new
        (workspace_of chunks.old table.old scratch.old) (workspace_of chunks.new table.new scratch.new) result }
{
    let cores = &mut CoreCount::new();
    kdf_with_buffers(
        password, salt, log_n, r, p, output, chunks, table, scratch, cores,
    )
}

/// Does what [`scrypt_kdf_with_buffers`] does, and counts its cores and the blocks that SHA-256
/// compresses.
#[tactic(auto, using(std::proofs::lemmas::Bool::Decides::nat_tests), unfolding(scrypt::specs::InBuffers::are_enough))]
pub fn kdf_with_buffers(
    password: &[u8],
    salt: &[u8],
    log_n: u8,
    r: u32,
    p: u32,
    output: &mut [u8],
    chunks: &mut [u8],
    table: &mut [u32],
    scratch: &mut [u32],
    cores: &mut CoreCount,
) -> i32
    ensures key { HasKeyIn password.now salt.now log_n r p output.old output.new
        (workspace_of chunks.old table.old scratch.old) (workspace_of chunks.new table.new scratch.new) result }
    ensures work { IsWork (cost log_n r p) (hash_cost (length password.now) (length salt.now) r p (length output.old))
        cores.old cores.new result }
{
    let Ok(params) = Params::new(log_n, r, p) else {
        return INVALID_PARAMS;
    };
    if !output_len_ok(output.len()) {
        return INVALID_OUTPUT_LEN;
    }
    let lens = BufferLens::of(&params);
    if (chunks.len() as Size) < lens.chunks
        || (table.len() as Size) < lens.table
        || (scratch.len() as Size) < lens.scratch
    {
        return BUFFER_SIZE;
    }
    // The length of the output was checked above.
    scrypt_with_buffers(
        password, salt, &params, chunks, table, scratch, output, cores,
    )
    .unwrap();
    OK
}

/// Does what `scrypt_kdf_with_buffers` does, with a time-memory trade-off: the table keeps one row
/// in `2^s`, so it has `2^s` times fewer words, and any other row is recomputed whenever it is
/// needed.
///
/// Returns `OK`, or the first of these: `INVALID_PARAMS`, also if `s` is above `log_n`,
/// `INVALID_OUTPUT_LEN`, and `BUFFER_SIZE` unless the three buffers have exactly the lengths of
/// `scrypt_buffer_lens` with this `s`. After `OK` the chunks and the scratch are zeros, and the
/// contents of the table are unspecified. On an error all three buffers and the output are
/// unchanged.
#[unsafe(no_mangle)]
pub extern "C" fn scrypt_kdf_thin(
    password: &[u8],
    salt: &[u8],
    log_n: u8,
    r: u32,
    p: u32,
    s: u8,
    output: &mut [u8],
    chunks: &mut [u8],
    table: &mut [u32],
    scratch: &mut [u32],
) -> i32
    ensures key { HasThinKey password.now salt.now log_n r p s output.old output.new
        (workspace_of chunks.old table.old scratch.old) (workspace_of chunks.new table.new scratch.new) result }
{
    let cores = &mut CoreCount::new();
    kdf_thin(
        password, salt, log_n, r, p, s, output, chunks, table, scratch, cores,
    )
}

/// Does what [`scrypt_kdf_thin`] does, and counts its cores and the blocks that SHA-256 compresses.
pub fn kdf_thin(
    password: &[u8],
    salt: &[u8],
    log_n: u8,
    r: u32,
    p: u32,
    s: u8,
    output: &mut [u8],
    chunks: &mut [u8],
    table: &mut [u32],
    scratch: &mut [u32],
    cores: &mut CoreCount,
) -> i32
    ensures key { HasThinKey password.now salt.now log_n r p s output.old output.new
        (workspace_of chunks.old table.old scratch.old) (workspace_of chunks.new table.new scratch.new) result }
    ensures work { IsWork (thin_cost password.now salt.now log_n r p s)
        (hash_cost (length password.now) (length salt.now) r p (length output.old)) cores.old cores.new result }
{
    let Some((params, lens)) = params_and_lens(log_n, r, p, s) else {
        return INVALID_PARAMS;
    };
    // Neither derivation below fails, since the length of the output is checked here.
    if !output_len_ok(output.len()) {
        return INVALID_OUTPUT_LEN;
    }
    if !are_exact(&lens, chunks, table, scratch) {
        return BUFFER_SIZE;
    }
    if s == 0 {
        let whole = scrypt_with_buffers(
            password, salt, &params, chunks, table, scratch, output, cores,
        );
        whole.unwrap();
        return OK;
    }
    let derived = scrypt_thin(
        password, salt, &params, s, chunks, table, scratch, output, cores,
    );
    derived.unwrap();
    OK
}

// The parameters, and the lengths of their buffers, if `log_n`, `r`, `p` and `s` are accepted.
fn params_and_lens(log_n: u8, r: u32, p: u32, s: u8) -> Option<(Params, BufferLens)>
    ensures exact { IsSome result ↔ (IsTrue (are_accepted log_n r p) × IsSpacing log_n s) }
    ensures params { IfSome result (λ both. both.0 ≡ params_of log_n r p) }
    ensures lens { IfSome result (λ both. AreBuffers log_n r p s both.1.chunks both.1.table both.1.scratch) }
{
    let params = Params::new(log_n, r, p).ok()?;
    let lens = match s {
        0 => BufferLens::of(&params),
        _ => BufferLens::thin(&params, s)?,
    };
    Some((params, lens))
}

// Whether the buffers have exactly these lengths.
fn are_exact(lens: &BufferLens, chunks: &[u8], table: &[u32], scratch: &[u32]) -> bool
    ensures exact { IsTrue result ↔ ((length chunks.now ≡ lens.now.chunks) × (length table.now ≡ lens.now.table)
        × (length scratch.now ≡ lens.now.scratch)) }
{
    chunks.len() as Size == lens.chunks
        && table.len() as Size == lens.table
        && scratch.len() as Size == lens.scratch
}
