//! Keys in steps, in the caller's buffers: between two steps the caller can show progress or cancel.

ghost use Rattle.std.specs.Prelude.{◌≡◌, ◌≢◌, ◌↔◌, true, ◌*◌, length, min, IsTrue};
ghost use Rattle.scrypt.specs.Terms.{AreCountedAs, AreHashed, chunks_bytes, lacking, pbkdf2_cost};
ghost use Rattle.scrypt_c.specs.{AreForSteps, HasBegun, HasFinished, HasStepped, kept_of, params_of};

use crate::statuses::{
    BUFFER_SIZE, INVALID_OUTPUT_LEN, INVALID_PARAMS, INVALID_PROGRESS, OK, UNFINISHED,
};
use scrypt::steps::{begin, finish, is_within, step};
use scrypt::{Backend, BufferLens, CoreCount, InvalidOutputLen, Params, Progress, Size, Target};

/// Begins a key in steps. It runs no core yet: `scrypt_key_step` does, and `scrypt_key_finish`
/// writes the key. Up to four chunks are interleaved, one for each table and scratch.
///
/// Returns `OK`, or the first of these, and then nothing has changed: `INVALID_PARAMS`; and
/// `BUFFER_SIZE` unless the chunks have exactly the length that `scrypt_buffer_lens` returns with
/// `s = 0`, and the table and the scratch have its lengths or more. The initial contents of the
/// buffers do not matter. After `OK` pass the buffers and the progress only to the other two calls.
/// To cancel a key, wipe the buffers: nothing else is needed.
#[unsafe(no_mangle)]
pub extern "C" fn scrypt_key_begin(
    password: &[u8],
    salt: &[u8],
    log_n: u8,
    r: u32,
    p: u32,
    chunks: &mut [u8],
    table: &mut [u32],
    scratch: &mut [u32],
    at: &mut Progress,
) -> i32
    ensures begun { HasBegun ⟦<Target as Backend>⟧.most ⟦<Target as Backend>⟧.scalar
        password.now salt.now log_n r p (kept_of chunks.old table.old scratch.old at.old)
        (kept_of chunks.new table.new scratch.new at.new) result }
{
    let cores = &mut CoreCount::new();
    key_begin(
        password, salt, log_n, r, p, chunks, table, scratch, at, cores,
    )
}

/// Does what [`scrypt_key_begin`] does, and counts its cores and the blocks that SHA-256 compresses.
pub fn key_begin(
    password: &[u8],
    salt: &[u8],
    log_n: u8,
    r: u32,
    p: u32,
    chunks: &mut [u8],
    table: &mut [u32],
    scratch: &mut [u32],
    at: &mut Progress,
    cores: &mut CoreCount,
) -> i32
    ensures begun { HasBegun ⟦<Target as Backend>⟧.most ⟦<Target as Backend>⟧.scalar
        password.now salt.now log_n r p (kept_of chunks.old table.old scratch.old at.old)
        (kept_of chunks.new table.new scratch.new at.new) result }
    ensures counted { result ≡ OK
        → AreHashed (pbkdf2_cost (length password.now) (length salt.now) (chunks_bytes r p)) cores.old cores.new }
    ensures uncounted { result ≢ OK → cores.new ≡ cores.old }
{
    let Ok(params) = Params::new(log_n, r, p) else {
        return INVALID_PARAMS;
    };
    if !are_for_steps(&params, 1, chunks, table, scratch) {
        return BUFFER_SIZE;
    }
    *at = begin::<Target>(password, salt, &params, chunks, table, scratch, cores);
    OK
}

/// Continues a key: runs `count` block mixes of each chunk that is mixed now, or all that remain of
/// its `2^(log_n + 1)`. A block mix takes `2 * r` Salsa20/8 cores. All `p` chunks are mixed when
/// `at.chunks` is `p`.
///
/// Returns `OK`, or the first of these, and then nothing has changed: `INVALID_PARAMS`;
/// `BUFFER_SIZE` unless the chunks have exactly their length and the table and the scratch have
/// capacity for `at.interleaved` chunks; and `INVALID_PROGRESS` unless a key with these parameters
/// can have this progress on this processor.
#[unsafe(no_mangle)]
pub extern "C" fn scrypt_key_step(
    log_n: u8,
    r: u32,
    p: u32,
    count: usize,
    chunks: &mut [u8],
    table: &mut [u32],
    scratch: &mut [u32],
    at: &mut Progress,
) -> i32
    ensures stepped { HasStepped ⟦<Target as Backend>⟧.most ⟦<Target as Backend>⟧.scalar
        log_n r p count (kept_of chunks.old table.old scratch.old at.old)
        (kept_of chunks.new table.new scratch.new at.new) result }
{
    let cores = &mut CoreCount::new();
    key_step(log_n, r, p, count, chunks, table, scratch, at, cores)
}

/// Does what [`scrypt_key_step`] does, and counts its cores and the blocks that SHA-256 compresses.
pub fn key_step(
    log_n: u8,
    r: u32,
    p: u32,
    count: usize,
    chunks: &mut [u8],
    table: &mut [u32],
    scratch: &mut [u32],
    at: &mut Progress,
    cores: &mut CoreCount,
) -> i32
    ensures stepped { HasStepped ⟦<Target as Backend>⟧.most ⟦<Target as Backend>⟧.scalar
        log_n r p count (kept_of chunks.old table.old scratch.old at.old)
        (kept_of chunks.new table.new scratch.new at.new) result }
    ensures counted { result ≡ OK → AreCountedAs true
        (min count (lacking (params_of log_n r p) at.old) * (at.old.interleaved * (2 * r))) cores.old cores.new }
    ensures uncounted { result ≢ OK → cores.new ≡ cores.old }
{
    let Ok(params) = Params::new(log_n, r, p) else {
        return INVALID_PARAMS;
    };
    if !are_for_steps(&params, at.interleaved, chunks, table, scratch) {
        return BUFFER_SIZE;
    }
    if !is_within::<Target>(&params, *at) {
        return INVALID_PROGRESS;
    }
    *at = step::<Target>(&params, *at, count, chunks, table, scratch, cores);
    OK
}

/// Finishes a key: writes it to `output`.
///
/// Returns `OK`, or the first of these, and then the output is unchanged: `INVALID_PARAMS`;
/// `BUFFER_SIZE` unless the chunks have the length of `scrypt_buffer_lens`; `UNFINISHED` unless all
/// chunks are mixed; and `INVALID_OUTPUT_LEN`.
#[unsafe(no_mangle)]
pub extern "C" fn scrypt_key_finish(
    password: &[u8],
    log_n: u8,
    r: u32,
    p: u32,
    chunks: &[u8],
    at: &Progress,
    output: &mut [u8],
) -> i32
    ensures finished { HasFinished password.now log_n r p chunks.now at.now output.old output.new result }
{
    let cores = &mut CoreCount::new();
    key_finish(password, log_n, r, p, chunks, at, output, cores)
}

/// Does what [`scrypt_key_finish`] does, and counts its cores and the blocks that SHA-256 compresses.
pub fn key_finish(
    password: &[u8],
    log_n: u8,
    r: u32,
    p: u32,
    chunks: &[u8],
    at: &Progress,
    output: &mut [u8],
    cores: &mut CoreCount,
) -> i32
    ensures finished { HasFinished password.now log_n r p chunks.now at.now output.old output.new result }
    ensures counted { result ≡ OK
        → AreHashed (pbkdf2_cost (length password.now) (chunks_bytes r p) (length output.old)) cores.old cores.new }
    ensures uncounted { result ≢ OK → cores.new ≡ cores.old }
{
    let Ok(params) = Params::new(log_n, r, p) else {
        return INVALID_PARAMS;
    };
    if chunks.len() as Size != BufferLens::of(&params).chunks {
        return BUFFER_SIZE;
    }
    if at.chunks != params.p() as usize {
        return UNFINISHED;
    }
    match finish(password, &params, *at, chunks, output, cores) {
        Ok(()) => OK,
        Err(InvalidOutputLen) => INVALID_OUTPUT_LEN,
    }
}

// Whether the chunks have their length, and the table and the scratch fit `tables` chunks.
pub(crate) fn are_for_steps(
    params: &Params,
    tables: usize,
    chunks: &[u8],
    table: &[u32],
    scratch: &[u32],
) -> bool
    ensures exact { IsTrue result ↔ AreForSteps params.now tables chunks.now table.now scratch.now }
{
    let lens = BufferLens::of(params);
    let (table_words, scratch_words) = (lens.table as u128, lens.scratch as u128);
    chunks.len() as Size == lens.chunks
        && tables as u128 * table_words <= table.len() as u128
        && tables as u128 * scratch_words <= scratch.len() as u128
}
