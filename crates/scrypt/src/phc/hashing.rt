// Making PHC hashes.

ghost use Rattle.std.specs.Prelude.{◌≡◌, ◌↔◌, ◌⊎◌, ℕ, List, length, if◌then◌else◌, Some, Ok, Err, false, IfErr, IfOk, IsErrOf, IsOk, OnErr, OnOk, IsTrue};
ghost use Rattle.scrypt.specs.Terms.{AreCompressed, AreCounted, BufferTooShort, IsDone, IsTextOfKey, are_enough, cost_by};
ghost use Rattle.scrypt.specs.Terms.{hash_cost, hash_text, is_salt_len, is_stored_len, key_len_or_default, made_phc};
ghost use Rattle.scrypt.specs.Terms.{phc_hash, refusal, salt_refusal, with_limited_refusal, workspace_of};
ghost use Rattle.password_hash.specs.Refusal.{SaltInvalid as BadSalt};
ghost use Rattle.password_hash.specs.declared.error.Error.TheVariants.{OutputSize, SaltInvalid};

use crate::buffers::memory::{ActiveBuffers, Allocation, with_prefix};
use crate::hashing::stored_key;
use crate::phc::ALG_ID;
use crate::phc::params::written;
use crate::{Backend, CoreCount, LimitedError, Params};
use password_hash::phc::{Output, PasswordHash, Salt};
use password_hash::{Error, Result};
use scrypt_kernel::memory::{Allocated, Buffer};
use std::alloc::Global;

/// Hashes `password` as [`Scrypt`](crate::Scrypt) does with these parameters, by the backend `W`.
///
/// Counts the `4 * N * r * p` cores and the blocks that SHA-256 compresses.
///
/// Returns `SaltInvalid` if `salt` does not have 1 to 64 bytes, and otherwise `OutOfMemory` if an
/// allocation fails. On an error the count is unchanged.
#[tactic(auto, using(std::proofs::lemmas::Bool::Decides::nat_tests), unfolding(crate::specs::PhcHash::is_salt_len, crate::specs::PhcHash::made_phc))]
pub fn hash<W: Backend>(
    alloc: Global,
    password: &[u8],
    salt: &[u8],
    params: &Params,
    cores: &mut CoreCount,
) -> Result<PasswordHash>
    ensures made { IfOk result (λ hash. IsTrue (is_salt_len (length salt.now))
        × (hash ≡ made_phc params.now password.now salt.now)) }
    ensures counted { OnOk result (AreCounted (cost_by params.now) cores.old cores.new) }
    ensures hashed { OnOk result (AreCompressed (hash_cost (length password.now) (length salt.now) params.now.r
        params.now.p (key_len_or_default params.now)) cores.old cores.new) }
    ensures err { IfErr result (λ e. refusal e ≡ salt_refusal salt.now) }
    ensures uncounted { OnErr result (cores.new ≡ cores.old) }
{
    let Ok(salt) = Salt::new(salt) else {
        return Err(Error::SaltInvalid);
    };
    // A limit of 0 bytes selects one table.
    let (w, mut own) = Allocation::allocate_within(alloc, params, 0)?;
    let mut used = ActiveBuffers::new(w, &mut own.chunks, &mut own.table, &mut own.scratch, cores);
    let key = stored_key::<Allocated, W>(password, salt.as_bytes(), params, &mut used);
    Ok(hash_of(params, salt, key))
}

// Returns the hash with this salt and this key.
fn hash_of(params: &Params, salt: Salt, key: Output) -> PasswordHash
    ensures { result ≡ phc_hash params.now salt key }
{
    PasswordHash {
        algorithm: ALG_ID,
        version: None,
        params: written(params),
        salt: Some(salt),
        hash: Some(key),
    }
}

/// Returns the length in bytes of the text of the hash that hashing with these parameters and this
/// salt makes.
///
/// Returns `SaltInvalid` if `salt` does not have 1 to 64 bytes.
#[tactic(auto, using(std::proofs::lemmas::Bool::Decides::nat_tests), unfolding(crate::specs::PhcHash::is_salt_len))]
pub fn hash_len(params: &Params, salt: &[u8]) -> Result<usize>
    ensures salt { IsOk result ↔ IsTrue (is_salt_len (length salt.now)) }
    ensures made { IfOk result (λ len. (password : List ℕ)
        → length (hash_text (made_phc params.now password salt.now)) ≡ len) }
    ensures err { IfErr result (λ e. e ≡ SaltInvalid) }
{
    let Ok(salt) = Salt::new(salt) else {
        return Err(Error::SaltInvalid);
    };
    params.expose_invariant();
    // A key of zeros has as many letters as any other key of its length.
    let places = [0u8; Output::MAX_LENGTH];
    let Ok(key) = Output::new(&places[..params.key_len_or_default()]) else {
        unreachable!();
    };
    Ok(hash_of(params, salt, key).to_array_string().len())
}

/// Returns the hash of this salt and this key, which any program has derived with these parameters.
/// The length in `params` is ignored.
///
/// Returns `SaltInvalid` if `salt` does not have 1 to 64 bytes, and otherwise `OutputSize` if `key`
/// does not have 10 to 64.
#[tactic(auto, using(std::proofs::lemmas::Bool::Decides::nat_tests), unfolding(crate::specs::Accepted::is_stored_len, crate::specs::PhcHash::is_salt_len))]
pub fn hash_of_key(params: &Params, salt: &[u8], key: &[u8]) -> Result<PasswordHash>
    ensures read { IfOk result (λ hash. IsTextOfKey false params.now salt.now key.now (hash_text hash)) }
    ensures salt { IsErrOf result SaltInvalid ↔ (¬ IsTrue (is_salt_len (length salt.now))) }
    ensures key { IsErrOf result OutputSize
        ↔ (IsTrue (is_salt_len (length salt.now)) × ¬ IsTrue (is_stored_len (Some (length key.now)))) }
    ensures err { IfErr result (λ e. (e ≡ SaltInvalid) ⊎ (e ≡ OutputSize)) }
{
    params.expose_invariant();
    let Ok(salt) = Salt::new(salt) else {
        return Err(Error::SaltInvalid);
    };
    let Ok(key) = Output::new(key) else {
        return Err(Error::OutputSize);
    };
    Ok(hash_of(params, salt, key))
}

/// Hashes `password` as `Scrypt::hash_password_with_params` does, in the caller's buffers. Does not
/// allocate.
///
/// Each buffer is at least as long as [`BufferLens::of`](crate::BufferLens::of) returns for
/// `params`. The buffers and the count are used and left as
/// [`StoredHash::verify_with_buffers`](crate::StoredHash::verify_with_buffers) uses and leaves
/// them.
///
/// Returns `SaltInvalid` if `salt` does not have 1 to 64 bytes, and otherwise `BufferTooShort`
/// exactly if a buffer is too short. On an error the buffers and the count are unchanged.
#[tactic(auto, using(std::proofs::lemmas::Bool::Decides::nat_tests), unfolding(crate::specs::PhcHash::is_salt_len, crate::specs::PhcHash::made_phc))]
pub fn hash_with_buffers<W: Backend>(
    password: &[u8],
    salt: &[u8],
    params: &Params,
    chunks: &mut [u8],
    table: &mut [u32],
    scratch: &mut [u32],
    cores: &mut CoreCount,
) -> std::result::Result<PasswordHash, LimitedError>
    ensures made { with_limited_refusal result ≡ if is_salt_len (length salt.now)
        then if are_enough params.now chunks.old table.old scratch.old
        then Ok (made_phc params.now password.now salt.now) else Err BufferTooShort else Err BadSalt }
    ensures done { OnOk result (IsDone params.now (workspace_of chunks.old table.old scratch.old)
        (workspace_of chunks.new table.new scratch.new)) }
    ensures counted { OnOk result (AreCounted (cost_by params.now) cores.old cores.new) }
    ensures hashed { OnOk result (AreCompressed (hash_cost (length password.now) (length salt.now)
        params.now.r params.now.p (key_len_or_default params.now)) cores.old cores.new) }
    ensures unchanged { OnErr result (workspace_of chunks.new table.new scratch.new
        ≡ workspace_of chunks.old table.old scratch.old) }
    ensures uncounted { OnErr result (cores.new ≡ cores.old) }
{
    let Ok(salt) = Salt::new(salt) else {
        return Err(LimitedError::Hash(Error::SaltInvalid));
    };
    params.expose_invariant();
    let bytes = salt.as_bytes();
    let derive = |used: &mut ActiveBuffers<'_, Buffer<'_>>, _: &mut [()]| {
        stored_key::<Buffer<'_>, W>(password, bytes, params, used)
    };
    let p = params.p();
    let key = with_prefix(params, p, chunks, table, scratch, cores, &mut [], derive);
    match key {
        Some(key) => Ok(hash_of(params, salt, key)),
        None => Err(LimitedError::BufferTooShort),
    }
}
