//! Verifying in steps, in the caller's buffers. The steps are those of a key.

ghost use Rattle.std.specs.Prelude.{◌≡◌, ◌≢◌, ◌⊎◌, length, IfOk, OnErr};
ghost use Rattle.scrypt.specs.Terms.{AreHashed, chunks_bytes, pbkdf2_cost};
ghost use Rattle.scrypt_c.specs.{HasBegunVerifying, HasFinishedVerifying, bytes_reading, kept_of, limited_reading, params_of};

use crate::in_steps::are_for_steps;
use crate::statuses::{BUFFER_SIZE, OK, UNFINISHED, limited_status_of, status_of, verdict_status};
use crate::texts::{limited_hash, stored_hash, whole_params};
use scrypt::steps::begin;
use scrypt::{Backend, BufferLens, CoreCount, Progress, Size, Target};

/// Begins verifying a password against the text of a hash, in steps, if the cost of the hash is
/// within the limits. Continue with `scrypt_key_step`, with the parameters that this call writes;
/// `scrypt_verify_finish` returns the verdict.
///
/// Returns `OK`, or the first of these, and then nothing has changed: the errors of
/// `scrypt_verify_limited` before it derives, and `BUFFER_SIZE` as `scrypt_key_begin` does.
#[unsafe(no_mangle)]
pub extern "C" fn scrypt_verify_begin(
    password: &[u8],
    text: &[u8],
    max_mem: Size,
    max_work: u64,
    min_key_len: usize,
    log_n: &mut u8,
    r: &mut u32,
    p: &mut u32,
    chunks: &mut [u8],
    table: &mut [u32],
    scratch: &mut [u32],
    at: &mut Progress,
) -> i32
    ensures begun { HasBegunVerifying ⟦<Target as Backend>⟧.most ⟦<Target as Backend>⟧.scalar
        password.now (bytes_reading text.now) (limited_reading max_mem max_work min_key_len text.now)
        (params_of log_n.old r.old p.old) (params_of log_n.new r.new p.new)
        (kept_of chunks.old table.old scratch.old at.old) (kept_of chunks.new table.new scratch.new at.new) result }
{
    let cores = &mut CoreCount::new();
    verify_begin(
        password,
        text,
        max_mem,
        max_work,
        min_key_len,
        log_n,
        r,
        p,
        chunks,
        table,
        scratch,
        at,
        cores,
    )
}

/// Does what [`scrypt_verify_begin`] does, and counts its cores and the blocks that SHA-256 compresses.
pub fn verify_begin(
    password: &[u8],
    text: &[u8],
    max_mem: Size,
    max_work: u64,
    min_key_len: usize,
    log_n: &mut u8,
    r: &mut u32,
    p: &mut u32,
    chunks: &mut [u8],
    table: &mut [u32],
    scratch: &mut [u32],
    at: &mut Progress,
    cores: &mut CoreCount,
) -> i32
    ensures begun { HasBegunVerifying ⟦<Target as Backend>⟧.most ⟦<Target as Backend>⟧.scalar
        password.now (bytes_reading text.now) (limited_reading max_mem max_work min_key_len text.now)
        (params_of log_n.old r.old p.old) (params_of log_n.new r.new p.new)
        (kept_of chunks.old table.old scratch.old at.old) (kept_of chunks.new table.new scratch.new at.new) result }
    ensures counted { result ≡ OK → IfOk (bytes_reading text.now) (λ s. AreHashed
        (pbkdf2_cost (length password.now) (length s.salt) (chunks_bytes s.params.r s.params.p)) cores.old cores.new) }
    ensures uncounted { result ≢ OK → cores.new ≡ cores.old }
{
    let hash = match limited_hash(text, max_mem, max_work, min_key_len) {
        Ok(hash) => hash,
        Err(error) => return limited_status_of(error),
    };
    let (Ok((params, _)), Ok(salt)) = (whole_params(&hash), hash.salt()) else {
        unreachable!();
    };
    if !are_for_steps(&params, 1, chunks, table, scratch) {
        return BUFFER_SIZE;
    }
    *at = begin::<Target>(password, salt, &params, chunks, table, scratch, cores);
    *log_n = params.log_n();
    *r = params.r();
    *p = params.p();
    OK
}

/// Finishes verifying a password against the text of a hash: returns the verdict.
///
/// Returns `OK`, or the first of these: the errors of `scrypt_verify_limited` for a hash that cannot
/// be read; `BUFFER_SIZE` unless the chunks have the length of `scrypt_buffer_lens`; `UNFINISHED`
/// unless all chunks are mixed; and `MISMATCH`.
#[unsafe(no_mangle)]
pub extern "C" fn scrypt_verify_finish(
    password: &[u8],
    text: &[u8],
    chunks: &[u8],
    at: &Progress,
) -> i32
    ensures finished { HasFinishedVerifying password.now (bytes_reading text.now) chunks.now at.now result }
{
    let cores = &mut CoreCount::new();
    verify_finish(password, text, chunks, at, cores)
}

/// Does what [`scrypt_verify_finish`] does, and counts its cores and the blocks that SHA-256 compresses.
pub fn verify_finish(
    password: &[u8],
    text: &[u8],
    chunks: &[u8],
    at: &Progress,
    cores: &mut CoreCount,
) -> i32
    ensures finished { HasFinishedVerifying password.now (bytes_reading text.now) chunks.now at.now result }
    ensures counted { result ≢ BUFFER_SIZE → result ≢ UNFINISHED → IfOk (bytes_reading text.now) (λ s. AreHashed
        (pbkdf2_cost (length password.now) (chunks_bytes s.params.r s.params.p) (length s.key)) cores.old cores.new) }
    ensures unread_uncounted { OnErr (bytes_reading text.now) (cores.new ≡ cores.old) }
    ensures uncounted { (result ≡ BUFFER_SIZE) ⊎ (result ≡ UNFINISHED) → cores.new ≡ cores.old }
{
    let hash = match stored_hash(text) {
        Ok(hash) => hash,
        Err(error) => return status_of(error),
    };
    let params = match whole_params(&hash) {
        Ok((params, _)) => params,
        Err(error) => return status_of(error),
    };
    if chunks.len() as Size != BufferLens::of(&params).chunks {
        return BUFFER_SIZE;
    }
    if at.chunks != params.p() as usize {
        return UNFINISHED;
    }
    verdict_status(hash.finish_verify(password, *at, chunks, cores))
}
