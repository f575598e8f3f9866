//! Hashes, made and verified in the caller's buffers; nothing is allocated.
//!
//! A derivation uses the same prefix of each buffer as `scrypt_kdf_with_buffers` does. After it the
//! prefixes of the chunks and of the scratch are zeros, the prefix of the table is unspecified, and
//! nothing after them has changed. Without one the buffers are unchanged.

ghost use Rattle.std.specs.Prelude.{◌≡◌, ◌⊎◌, length, replicate, ⊤, IsTrue};
ghost use Rattle.scrypt.specs.Terms.{AreCompressed, AreCounted, IsLeft, are_enough, cores_in, cost, crypt64_of};
ghost use Rattle.scrypt.specs.Terms.{hash_cost, hash_text, hashed_in, is_salt_len, made_mcf, made_phc, verdict_in};
ghost use Rattle.scrypt.specs.Terms.{workspace_of};
ghost use Rattle.scrypt_c.specs.{AreHashParams, HasHashed, IsUsed, IsWork, limited_reading, result_status, wanted};

use crate::statuses::{BUFFER_SIZE, INVALID_PARAMS, OK, SALT_INVALID, limited_verdict_status};
use crate::texts::{copy_to, limited_hash};
use scrypt::{CoreCount, Params, Size, Target, mcf, phc, wipe};

/// Does what `scrypt_hash_phc` does, in the caller's buffers.
///
/// Returns `OK`, or the first of these: `INVALID_PARAMS` and `SALT_INVALID` as there; `BUFFER_SIZE`
/// if the new text is longer than `text`, and then `text_len` is its length, however short the
/// buffers are; and `BUFFER_SIZE` if a buffer is shorter than `scrypt_buffer_lens` returns for
/// `log_n`, `r` and `p` with `s = 0`. Unless the text is too long, an error leaves `text_len`
/// unchanged, and every error leaves `text` and the buffers unchanged: a key is derived only after
/// all of these.
#[unsafe(no_mangle)]
pub extern "C" fn scrypt_hash_phc_with_buffers(
    password: &[u8],
    salt: &[u8],
    log_n: u8,
    r: u32,
    p: u32,
    key_len: usize,
    text: &mut [u8],
    text_len: &mut usize,
    chunks: &mut [u8],
    table: &mut [u32],
    scratch: &mut [u32],
) -> i32
    ensures made { HasHashed (hash_text (made_phc (wanted log_n r p key_len) password.now salt.now))
        (AreHashParams log_n r p key_len) (IsTrue (is_salt_len (length salt.now)))
        (IsTrue (are_enough (wanted log_n r p key_len) chunks.old table.old scratch.old))
        text.old text.new text_len.old text_len.new result }
    ensures status { (result ≡ OK) ⊎ (result ≡ INVALID_PARAMS) ⊎ (result ≡ SALT_INVALID) ⊎ (result ≡ BUFFER_SIZE) }
    ensures used { IsUsed (wanted log_n r p key_len) (workspace_of chunks.old table.old scratch.old)
        (workspace_of chunks.new table.new scratch.new) result }
{
    let cores = &mut CoreCount::new();
    hash_phc_with_buffers(
        password, salt, log_n, r, p, key_len, text, text_len, chunks, table, scratch, cores,
    )
}

/// Does what [`scrypt_hash_phc_with_buffers`] does, and counts its cores and the blocks that SHA-256
/// compresses.
pub fn hash_phc_with_buffers(
    password: &[u8],
    salt: &[u8],
    log_n: u8,
    r: u32,
    p: u32,
    key_len: usize,
    text: &mut [u8],
    text_len: &mut usize,
    chunks: &mut [u8],
    table: &mut [u32],
    scratch: &mut [u32],
    cores: &mut CoreCount,
) -> i32
    ensures made { HasHashed (hash_text (made_phc (wanted log_n r p key_len) password.now salt.now))
        (AreHashParams log_n r p key_len) (IsTrue (is_salt_len (length salt.now)))
        (IsTrue (are_enough (wanted log_n r p key_len) chunks.old table.old scratch.old))
        text.old text.new text_len.old text_len.new result }
    ensures status { (result ≡ OK) ⊎ (result ≡ INVALID_PARAMS) ⊎ (result ≡ SALT_INVALID) ⊎ (result ≡ BUFFER_SIZE) }
    ensures used { IsUsed (wanted log_n r p key_len) (workspace_of chunks.old table.old scratch.old)
        (workspace_of chunks.new table.new scratch.new) result }
    ensures work { IsWork (cost log_n r p) (hash_cost (length password.now) (length salt.now) r p key_len)
        cores.old cores.new result }
{
    let Ok(params) = Params::new_with_output_len(log_n, r, p, key_len) else {
        return INVALID_PARAMS;
    };
    let Ok(len) = phc::hash_len(&params, salt) else {
        return SALT_INVALID;
    };
    if text.len() < len {
        *text_len = len;
        return BUFFER_SIZE;
    }
    match phc::hash_with_buffers::<Target>(password, salt, &params, chunks, table, scratch, cores) {
        Ok(hash) => copy_to(hash.to_array_string().as_str(), text, text_len),
        Err(_) => BUFFER_SIZE,
    }
}

/// Does what `scrypt_hash_mcf` does, in the caller's buffers.
///
/// Returns `OK`, or `INVALID_PARAMS` as there, or `BUFFER_SIZE` as `scrypt_hash_phc_with_buffers`
/// does, and on an error leaves the same unchanged.
#[unsafe(no_mangle)]
pub extern "C" fn scrypt_hash_mcf_with_buffers(
    password: &[u8],
    salt: &[u8],
    log_n: u8,
    r: u32,
    p: u32,
    key_len: usize,
    text: &mut [u8],
    text_len: &mut usize,
    chunks: &mut [u8],
    table: &mut [u32],
    scratch: &mut [u32],
) -> i32
    ensures made { HasHashed (made_mcf (wanted log_n r p key_len) password.now salt.now)
        (AreHashParams log_n r p key_len) ⊤
        (IsTrue (are_enough (wanted log_n r p key_len) chunks.old table.old scratch.old))
        text.old text.new text_len.old text_len.new result }
    ensures status { (result ≡ OK) ⊎ (result ≡ INVALID_PARAMS) ⊎ (result ≡ BUFFER_SIZE) }
    ensures used { IsUsed (wanted log_n r p key_len) (workspace_of chunks.old table.old scratch.old)
        (workspace_of chunks.new table.new scratch.new) result }
{
    let cores = &mut CoreCount::new();
    hash_mcf_with_buffers(
        password, salt, log_n, r, p, key_len, text, text_len, chunks, table, scratch, cores,
    )
}

/// Does what [`scrypt_hash_mcf_with_buffers`] does, and counts its cores and the blocks that SHA-256
/// compresses.
pub fn hash_mcf_with_buffers(
    password: &[u8],
    salt: &[u8],
    log_n: u8,
    r: u32,
    p: u32,
    key_len: usize,
    text: &mut [u8],
    text_len: &mut usize,
    chunks: &mut [u8],
    table: &mut [u32],
    scratch: &mut [u32],
    cores: &mut CoreCount,
) -> i32
    ensures made { HasHashed (made_mcf (wanted log_n r p key_len) password.now salt.now)
        (AreHashParams log_n r p key_len) ⊤
        (IsTrue (are_enough (wanted log_n r p key_len) chunks.old table.old scratch.old))
        text.old text.new text_len.old text_len.new result }
    ensures status { (result ≡ OK) ⊎ (result ≡ INVALID_PARAMS) ⊎ (result ≡ BUFFER_SIZE) }
    ensures used { IsUsed (wanted log_n r p key_len) (workspace_of chunks.old table.old scratch.old)
        (workspace_of chunks.new table.new scratch.new) result }
    ensures work { IsWork (cost log_n r p) (hash_cost (length password.now) (length (crypt64_of salt.now)) r p key_len)
        cores.old cores.new result }
{
    let Ok(params) = Params::new_with_output_len(log_n, r, p, key_len) else {
        return INVALID_PARAMS;
    };
    let len = mcf::hash_len(&params, salt);
    if text.len() < len {
        *text_len = len;
        return BUFFER_SIZE;
    }
    let Ok(len) = mcf::hash_with_buffers::<Target>(
        password, salt, &params, text, chunks, table, scratch, cores,
    ) else {
        return BUFFER_SIZE;
    };
    *text_len = len;
    OK
}

/// Does what `scrypt_verify_limited` does, in the caller's buffers. A key is derived if keys are
/// compared.
///
/// Returns `OK` as there, or the first of these: the errors of `scrypt_verify_limited` before it
/// allocates, however long the buffers are; `BUFFER_SIZE` if a buffer is shorter than
/// `scrypt_buffer_lens` returns for the parameters of the hash with `s = 0`; and `MISMATCH` if the
/// keys differ.
#[unsafe(no_mangle)]
pub extern "C" fn scrypt_verify_limited_with_buffers(
    password: &[u8],
    text: &[u8],
    max_mem: Size,
    max_work: u64,
    min_key_len: usize,
    chunks: &mut [u8],
    table: &mut [u32],
    scratch: &mut [u32],
) -> i32
    ensures status { result ≡ result_status (verdict_in (workspace_of chunks.old table.old scratch.old) password.now
        (limited_reading max_mem max_work min_key_len text.now)) }
    ensures left { IsLeft (limited_reading max_mem max_work min_key_len text.now)
        (workspace_of chunks.old table.old scratch.old) (workspace_of chunks.new table.new scratch.new) }
{
    let cores = &mut CoreCount::new();
    verify_limited_with_buffers(
        password,
        text,
        max_mem,
        max_work,
        min_key_len,
        chunks,
        table,
        scratch,
        cores,
    )
}

/// Does what [`scrypt_verify_limited_with_buffers`] does, and counts its cores and the blocks that
/// SHA-256 compresses.
pub fn verify_limited_with_buffers(
    password: &[u8],
    text: &[u8],
    max_mem: Size,
    max_work: u64,
    min_key_len: usize,
    chunks: &mut [u8],
    table: &mut [u32],
    scratch: &mut [u32],
    cores: &mut CoreCount,
) -> i32
    ensures status { result ≡ result_status (verdict_in (workspace_of chunks.old table.old scratch.old) password.now
        (limited_reading max_mem max_work min_key_len text.now)) }
    ensures left { IsLeft (limited_reading max_mem max_work min_key_len text.now)
        (workspace_of chunks.old table.old scratch.old) (workspace_of chunks.new table.new scratch.new) }
    ensures counted { let reading = limited_reading max_mem max_work min_key_len text.now in
        AreCounted (cores_in (workspace_of chunks.old table.old scratch.old) reading) cores.old cores.new }
    ensures hashed { let reading = limited_reading max_mem max_work min_key_len text.now in
        AreCompressed (hashed_in (workspace_of chunks.old table.old scratch.old) password.now reading) cores.old
        cores.new }
{
    let hash = match limited_hash(text, max_mem, max_work, min_key_len) {
        Ok(hash) => hash,
        Err(error) => return limited_verdict_status(Err(error)),
    };
    limited_verdict_status(hash.verify_with_buffers::<Target>(
        password, chunks, table, scratch, cores,
    ))
}

/// Writes zeros to the buffers of a derivation.
#[unsafe(no_mangle)]
pub extern "C" fn scrypt_wipe(chunks: &mut [u8], table: &mut [u32], scratch: &mut [u32])
    ensures chunks { chunks.new ≡ replicate (length chunks.old) 0 }
    ensures table { table.new ≡ replicate (length table.old) 0 }
    ensures scratch { scratch.new ≡ replicate (length scratch.old) 0 }
{
    wipe(chunks, table, scratch);
}
