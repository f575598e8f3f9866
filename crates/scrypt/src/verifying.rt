// Verifying, in every format, with any source of memory.

ghost use Rattle.std.specs.Prelude.{◌≡◌, if◌then◌else◌, Err, IsErrOf, Ok};
ghost use Rattle.scrypt.specs.Terms.{AreCompressed, AreCounted, IsLeft, IsReady, IsSpent, IsVerdict, PasswordInvalid};
ghost use Rattle.scrypt.specs.Terms.{cores_in, cost_by, hashed_in, is_right, stored, verdict_in, verify_cost};
ghost use Rattle.scrypt.specs.Terms.{with_limited_refusal, with_refusal, workspace_of};
ghost use Rattle.password_hash.specs.declared.error.Error.TheVariants.{OutOfMemory};

use crate::buffers::memory::{ActiveBuffers, Allocation, with_prefix};
use crate::comparing::is_derived_key;
use crate::derivation::derive_chunks;
use crate::derivation::mixing::mix_all;
use crate::stored_parts::StoredParts;
use crate::{Backend, CoreCount, LimitedError};
use password_hash::{Error, Result};
use scrypt_kernel::memory::{Allocated, Buffer, TableMemory};
use std::alloc::Global;

/// Accepts the password if the derived key is the stored one, and otherwise returns
/// `PasswordInvalid`.
pub(crate) fn accept_if(same: bool) -> Result<()>
    ensures value { with_refusal result ≡ (if same then Ok tt else Err PasswordInvalid) }
    ensures of_keys { ¬ IsErrOf result OutOfMemory }
{
    if same {
        Ok(())
    } else {
        Err(Error::PasswordInvalid)
    }
}

/// Returns a verdict as the verdict of a call with limits or in the caller's buffers.
pub(crate) fn limited(verdict: Result<()>) -> std::result::Result<(), LimitedError>
    ensures { with_limited_refusal result ≡ with_refusal verdict }
{
    Ok(verdict?)
}

// Derives a key of the stored key's length, in any memory, and returns whether it is the stored
// key. Afterwards the chunks and the scratch are zeros.
fn is_key_of<M: TableMemory, W: Backend>(
    password: &[u8],
    parts: &StoredParts<'_>,
    used: &mut ActiveBuffers<'_, M>,
) -> bool
    requires ready { IsReady M.room parts.now.params.log_n 0 parts.now.params.r parts.now.params.p used.old }
    ensures exact { result ≡ is_right password.now (stored parts.now) }
    ensures spent { IsSpent M.room used.old used.new }
    ensures counted { AreCounted (cost_by parts.now.params) used.old.cores.now used.new.cores.now }
    ensures hashed { AreCompressed (verify_cost password.now (stored parts.now))
        used.old.cores.now used.new.cores.now }
{
    let params = &parts.params;
    let salt = parts.salt.as_bytes();
    derive_chunks(password, salt, params, used.chunks, used.cores);
    mix_all::<M, W>(params, 0, params.p() as usize, used);
    // Borrowed mutably for the same reason as in `derive_in`.
    let mixed = &mut *used.chunks;
    let same = is_derived_key(password, mixed, parts, used.cores);
    used.chunks.fill(0);
    used.scratch.fill(0);
    same
}

/// Verifies with the parts of a hash, in three buffers that it allocates in this order: the chunks,
/// the table and the scratch.
///
/// Returns `OutOfMemory` if an allocation fails, before the first core, and otherwise
/// `PasswordInvalid` if the keys differ.
pub(crate) fn verify_allocating<W: Backend>(
    alloc: Global,
    password: &[u8],
    parts: &StoredParts<'_>,
    cores: &mut CoreCount,
) -> Result<()>
    ensures verdict { IsVerdict password.now (Ok (stored parts.now)) (with_refusal result) }
    ensures memory { IsErrOf result OutOfMemory → cores.new ≡ cores.old }
    ensures counted { (¬ IsErrOf result OutOfMemory) → AreCounted (cost_by parts.now.params) cores.old cores.new }
    ensures hashed { (¬ IsErrOf result OutOfMemory)
        → AreCompressed (verify_cost password.now (stored parts.now)) cores.old cores.new }
{
    // A limit of 0 bytes selects one table.
    let (w, mut own) = Allocation::allocate_within(alloc, &parts.params, 0)?;
    let mut used = ActiveBuffers::new(w, &mut own.chunks, &mut own.table, &mut own.scratch, cores);
    accept_if(is_key_of::<Allocated, W>(password, parts, &mut used))
}

/// Verifies with the parts of a hash, in the caller's buffers. Does not allocate.
///
/// Returns `BufferTooShort`, and changes nothing, exactly if a buffer is too short for the
/// parameters, and otherwise `PasswordInvalid` if the keys differ.
#[tactic(auto, using(crate::proofs::ReadingFacts::not_enough))]
pub(crate) fn verify_in_buffers<W: Backend>(
    password: &[u8],
    parts: &StoredParts<'_>,
    chunks: &mut [u8],
    table: &mut [u32],
    scratch: &mut [u32],
    cores: &mut CoreCount,
) -> std::result::Result<(), LimitedError>
    ensures left { IsLeft (Ok (stored parts.now)) (workspace_of chunks.old table.old scratch.old)
        (workspace_of chunks.new table.new scratch.new) }
    ensures verdict { with_limited_refusal result
        ≡ verdict_in (workspace_of chunks.old table.old scratch.old) password.now (Ok (stored parts.now)) }
    ensures counted { AreCounted (cores_in (workspace_of chunks.old table.old scratch.old)
        (Ok (stored parts.now))) cores.old cores.new }
    ensures hashed { AreCompressed (hashed_in (workspace_of chunks.old table.old scratch.old)
        password.now (Ok (stored parts.now))) cores.old cores.new }
{
    let params = &parts.params;
    let test = |used: &mut ActiveBuffers<'_, Buffer<'_>>, _: &mut [()]| {
        is_key_of::<Buffer<'_>, W>(password, parts, used)
    };
    let p = params.p();
    let same = with_prefix(params, p, chunks, table, scratch, cores, &mut [], test);
    limited(accept_if(same.ok_or(LimitedError::BufferTooShort)?))
}
