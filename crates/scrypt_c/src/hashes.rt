//! Hashes: making their texts, and verifying passwords against them.

ghost use Rattle.std.specs.Prelude.{◌≡◌, ◌≢◌, ◌⊎◌, length, ⊤, IfOk, IsTrue, OnErr};
ghost use Rattle.scrypt.specs.Terms.{AreCompressed, AreCounted, cost, cost_by, crypt64_of, hash_cost, hash_text};
ghost use Rattle.scrypt.specs.Terms.{is_salt_len, made_mcf, made_phc, verify_cost, weaker, with_refusal};
ghost use Rattle.scrypt_c.specs.{AreHashParams, HasHashed, IsVerifyStatus, IsWork, ReadsParams, bytes_reading};
ghost use Rattle.scrypt_c.specs.{limited_reading, rehash_status, wanted};

use crate::statuses::{
    BUFFER_SIZE, INVALID_PARAMS, MISMATCH, NEEDS_REHASH, OK, OUT_OF_MEMORY, SALT_INVALID,
    limited_status_of, status_of, verdict_status,
};
use crate::texts::{copy_to, limited_hash, stored_hash};
use password_hash::{Error, Result};
use scrypt::laws::reading_names_no_password;
use scrypt::{CoreCount, Params, Size, Target, mcf, phc};
use std::alloc::Global;

/// Writes the PHC string of the hash of `password` and `salt` to the start of `text`, and its
/// length to `text_len`. The key has `key_len` bytes.
///
/// Returns `OK`, or the first of these: `INVALID_PARAMS` unless `log_n`, `r` and `p` are accepted
/// and the key has 10 to 64 bytes; `SALT_INVALID` unless the salt has 1 to 64 bytes; `BUFFER_SIZE`
/// if the new text is longer than `text`, and then `text_len` is its length; and `OUT_OF_MEMORY` if
/// an allocation fails. On an error `text` is unchanged, and on any but `BUFFER_SIZE` so is
/// `text_len`: a key is derived only after all of these.
#[unsafe(no_mangle)]
pub extern "C" fn scrypt_hash_phc(
    alloc: Global,
    password: &[u8],
    salt: &[u8],
    log_n: u8,
    r: u32,
    p: u32,
    key_len: usize,
    text: &mut [u8],
    text_len: &mut usize,
) -> i32
    ensures made { HasHashed (hash_text (made_phc (wanted log_n r p key_len) password.now salt.now))
        (AreHashParams log_n r p key_len) (IsTrue (is_salt_len (length salt.now))) ⊤
        text.old text.new text_len.old text_len.new result }
    ensures status { (result ≡ OK) ⊎ (result ≡ INVALID_PARAMS) ⊎ (result ≡ SALT_INVALID) ⊎ (result ≡ BUFFER_SIZE)
        ⊎ (result ≡ OUT_OF_MEMORY) }
{
    let cores = &mut CoreCount::new();
    hash_phc(
        alloc, password, salt, log_n, r, p, key_len, text, text_len, cores,
    )
}

/// Does what [`scrypt_hash_phc`] does, and counts its cores and the blocks that SHA-256 compresses.
#[tactic(auto, using(crate::proofs::MadeFacts::is_hashed))]
pub fn hash_phc(
    alloc: Global,
    password: &[u8],
    salt: &[u8],
    log_n: u8,
    r: u32,
    p: u32,
    key_len: usize,
    text: &mut [u8],
    text_len: &mut usize,
    cores: &mut CoreCount,
) -> i32
    ensures made { HasHashed (hash_text (made_phc (wanted log_n r p key_len) password.now salt.now))
        (AreHashParams log_n r p key_len) (IsTrue (is_salt_len (length salt.now))) ⊤
        text.old text.new text_len.old text_len.new result }
    ensures status { (result ≡ OK) ⊎ (result ≡ INVALID_PARAMS) ⊎ (result ≡ SALT_INVALID) ⊎ (result ≡ BUFFER_SIZE)
        ⊎ (result ≡ OUT_OF_MEMORY) }
    ensures work { IsWork (cost log_n r p) (hash_cost (length password.now) (length salt.now) r p key_len)
        cores.old cores.new result }
{
    let Ok(params) = Params::new_with_output_len(log_n, r, p, key_len) else {
        return INVALID_PARAMS;
    };
    let Ok(len) = phc::hash_len(&params, salt) else {
        return SALT_INVALID;
    };
    if text.len() < len {
        *text_len = len;
        return BUFFER_SIZE;
    }
    match phc::hash::<Target>(alloc, password, salt, &params, cores) {
        Ok(hash) => copy_to(hash.to_array_string().as_str(), text, text_len),
        Err(error) => status_of(error),
    }
}

/// Writes the `$7$` hash of the hash of `password` and `salt` to the start of `text`, and its
/// length to `text_len`. The key has `key_len` bytes.
///
/// Returns `OK`, or the first of these: `INVALID_PARAMS` unless `log_n`, `r` and `p` are accepted
/// and the key has 10 to 64 bytes; and `BUFFER_SIZE` and `OUT_OF_MEMORY` as `scrypt_hash_phc` does,
/// and on an error leaves the same unchanged.
#[unsafe(no_mangle)]
pub extern "C" fn scrypt_hash_mcf(
    alloc: Global,
    password: &[u8],
    salt: &[u8],
    log_n: u8,
    r: u32,
    p: u32,
    key_len: usize,
    text: &mut [u8],
    text_len: &mut usize,
) -> i32
    ensures made { HasHashed (made_mcf (wanted log_n r p key_len) password.now salt.now)
        (AreHashParams log_n r p key_len) ⊤ ⊤ text.old text.new text_len.old text_len.new result }
    ensures status { (result ≡ OK) ⊎ (result ≡ INVALID_PARAMS) ⊎ (result ≡ BUFFER_SIZE) ⊎ (result ≡ OUT_OF_MEMORY) }
{
    let cores = &mut CoreCount::new();
    hash_mcf(
        alloc, password, salt, log_n, r, p, key_len, text, text_len, cores,
    )
}

/// Does what [`scrypt_hash_mcf`] does, and counts its cores and the blocks that SHA-256 compresses.
#[tactic(auto, using(crate::proofs::MadeFacts::is_hashed))]
pub fn hash_mcf(
    alloc: Global,
    password: &[u8],
    salt: &[u8],
    log_n: u8,
    r: u32,
    p: u32,
    key_len: usize,
    text: &mut [u8],
    text_len: &mut usize,
    cores: &mut CoreCount,
) -> i32
    ensures made { HasHashed (made_mcf (wanted log_n r p key_len) password.now salt.now)
        (AreHashParams log_n r p key_len) ⊤ ⊤ text.old text.new text_len.old text_len.new result }
    ensures status { (result ≡ OK) ⊎ (result ≡ INVALID_PARAMS) ⊎ (result ≡ BUFFER_SIZE) ⊎ (result ≡ OUT_OF_MEMORY) }
    ensures work { IsWork (cost log_n r p) (hash_cost (length password.now) (length (crypt64_of salt.now)) r p key_len)
        cores.old cores.new result }
{
    let Ok(params) = Params::new_with_output_len(log_n, r, p, key_len) else {
        return INVALID_PARAMS;
    };
    let len = mcf::hash_len(&params, salt);
    if text.len() < len {
        *text_len = len;
        return BUFFER_SIZE;
    }
    match mcf::hash::<Target>(alloc, password, salt, &params, cores) {
        Ok(hash) => copy_to(hash.as_str(), text, text_len),
        Err(error) => status_of(error),
    }
}

/// Reads the parameters of a hash and the length of its key in bytes, 0 if it has no key, so that a
/// caller can bound the work of verifying. A PHC hash without a salt or a key has parameters too.
/// Nothing is allocated.
///
/// Returns `OK`, or the error of `scrypt_verify_limited` for a text that cannot be read, except
/// `MISMATCH`. On an error the four outputs are unchanged.
#[unsafe(no_mangle)]
pub extern "C" fn scrypt_hash_params(
    text: &[u8],
    log_n: &mut u8,
    r: &mut u32,
    p: &mut u32,
    key_len: &mut usize,
) -> i32
    ensures read { ReadsParams text.now result log_n.new r.new p.new key_len.new }
    ensures missing { (result ≢ MISMATCH) × (result ≢ OUT_OF_MEMORY) }
    ensures unchanged { result ≢ OK
        → (log_n.new ≡ log_n.old) × (r.new ≡ r.old) × (p.new ≡ p.old) × (key_len.new ≡ key_len.old) }
{
    reading_names_no_password();
    let hash = match stored_hash(text) {
        Ok(hash) => hash,
        Err(error) => return status_of(error),
    };
    match hash.params_and_key_len() {
        Ok((params, len)) => {
            *log_n = params.log_n();
            *r = params.r();
            *p = params.p();
            *key_len = len;
            OK
        }
        Err(error) => status_of(error),
    }
}

/// Verifies the password against the text of a hash, with the parameters, the salt and the key
/// length that the text encodes, if it is within the limits. All bytes of the two keys are
/// compared.
///
/// A text that is `$7` or begins with `$7$` is read as a `$7$` hash, and any other as a PHC string.
/// Returns `OK` if the password has the same key as the hash, and otherwise the first of these:
/// `ENCODING_INVALID` if the bytes are not UTF-8; the status of the error of `StoredHash::read` and
/// of reading its parameters; `MISMATCH` if it has no salt or no key; `TOO_COSTLY` if the buffers
/// with one table have more than `max_mem` bytes in total, or if the work,
/// `4 * (2^log_n + 32) * r * p`, exceeds `max_work`; `KEY_TOO_SHORT` if the key has fewer than
/// `min_key_len` bytes; `OUT_OF_MEMORY`; and `MISMATCH` if the keys differ.
#[unsafe(no_mangle)]
pub extern "C" fn scrypt_verify_limited(
    alloc: Global,
    password: &[u8],
    text: &[u8],
    max_mem: Size,
    max_work: u64,
    min_key_len: usize,
) -> i32
    ensures status { IsVerifyStatus password.now (limited_reading max_mem max_work min_key_len text.now) result }
{
    let cores = &mut CoreCount::new();
    verify_limited(alloc, password, text, max_mem, max_work, min_key_len, cores)
}

/// Does what [`scrypt_verify_limited`] does, and counts its cores and the blocks that SHA-256
/// compresses.
pub fn verify_limited(
    alloc: Global,
    password: &[u8],
    text: &[u8],
    max_mem: Size,
    max_work: u64,
    min_key_len: usize,
    cores: &mut CoreCount,
) -> i32
    ensures status { IsVerifyStatus password.now (limited_reading max_mem max_work min_key_len text.now) result }
    ensures counted { IfOk (limited_reading max_mem max_work min_key_len text.now) (λ s. result ≢ OUT_OF_MEMORY
        → AreCounted (cost_by s.params) cores.old cores.new) }
    ensures hashed { IfOk (limited_reading max_mem max_work min_key_len text.now) (λ s. result ≢ OUT_OF_MEMORY
        → AreCompressed (verify_cost password.now s) cores.old cores.new) }
    ensures unread { OnErr (limited_reading max_mem max_work min_key_len text.now) (cores.new ≡ cores.old) }
    ensures memory { result ≡ OUT_OF_MEMORY → cores.new ≡ cores.old }
{
    let hash = match limited_hash(text, max_mem, max_work, min_key_len) {
        Ok(hash) => hash,
        Err(error) => return limited_status_of(error),
    };
    verdict_status(hash.verify_counted::<Target>(alloc, password, cores))
}

/// Compares the hash in a text with the wanted parameters. The hash is weaker if at least one of
/// `log_n`, `r`, `p` and the length of its key is below the wanted value. Nothing is allocated.
///
/// Returns the first of these: `INVALID_PARAMS` unless `log_n`, `r` and `p` are accepted and the
/// wanted key has 10 to 64 bytes, whatever the text is; the error of `scrypt_verify_limited` for a
/// text that cannot be read; `NEEDS_REHASH` if the hash has no salt or no key, or is weaker; and
/// `OK` if it is not.
#[unsafe(no_mangle)]
pub extern "C" fn scrypt_needs_rehash(text: &[u8], log_n: u8, r: u32, p: u32, key_len: usize) -> i32
    ensures status { ((result ≡ INVALID_PARAMS) × ¬ AreHashParams log_n r p key_len)
        ⊎ (AreHashParams log_n r p key_len
        × (result ≡ rehash_status (weaker (wanted log_n r p key_len) (bytes_reading text.now)))) }
{
    let Ok(wanted) = Params::new_with_output_len(log_n, r, p, key_len) else {
        return INVALID_PARAMS;
    };
    match stored_hash(text) {
        Ok(hash) => rehash_status(hash.needs_rehash(&wanted)),
        Err(error) => rehash_status(Err(error)),
    }
}

// Returns the status of the result of comparing a hash with wanted parameters.
fn rehash_status(weaker: Result<bool>) -> i32
    ensures { result ≡ rehash_status (with_refusal weaker) }
{
    match weaker {
        Ok(true) | Err(Error::PasswordInvalid) => NEEDS_REHASH,
        Ok(false) => OK,
        Err(error) => status_of(error),
    }
}
