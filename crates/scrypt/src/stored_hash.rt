// Stored hashes of either format.

ghost use Rattle.std.specs.Prelude.{◌≡◌, ◌⊎◌, ◌↔◌, Err, IfErr, IfOk, IsErrOf, IsOk, IsTrue, None, Ok, OnErr};
ghost use Rattle.scrypt.specs.Terms.{◌and_then◌, AreCompressed, AreCounted, IsLeft, IsReadAs, IsVerdict, cores_in};
ghost use Rattle.scrypt.specs.Terms.{cost_by, formatted, hashed_in, is_mcf_text, is_stored_text, key_len_or_zero};
ghost use Rattle.scrypt.specs.Terms.{let_in, mapped, params_reading, reading, refusal, stored, verdict, verdict_in};
ghost use Rattle.scrypt.specs.Terms.{verify_cost, weaker, with_limited_refusal, with_refusal, workspace_of};
ghost use Rattle.password_hash.specs.declared.error.Error.TheVariants.{EncodingInvalid, OutOfMemory};

mod in_steps;
mod within;

use crate::mcf::reading::parts_of_mcf;
use crate::phc::reading::{parts_of_phc, read_params};
use crate::stored_parts::StoredParts;
use crate::verifying::{verify_allocating, verify_in_buffers};
use crate::{Backend, CoreCount, LimitedError, Params, Target};
use password_hash::{Error, Result, mcf, phc};
use std::alloc::Global;
use std::marker::Model;

/// A stored hash of either format, a PHC string or a `$7$` hash, borrowed from its text.
///
/// A text that is `$7` or begins with `$7$` is read as a `$7$` hash, and any other as a PHC string.
#[derive(Drop)]
pub struct StoredHash<'a> {
    text: &'a str,
    // The parameters and the length of the key. A PHC hash without a salt or a key has these too.
    params: Result<(Params, usize)>,
    parts: Result<StoredParts<'a>>,
}

impl<'a> Model for StoredHash<'a> {
    ghost use Rattle.std.specs.Prelude.{ℕ, List};
    ghost use Rattle.scrypt.specs.StoredParts.{IsReadAs};

    ghost Value = { List ℕ };

    ghost view = { λ a. a.text.now };

    ghost invariant = { λ a. IsReadAs a.text.now a.params a.parts };
}

impl<'a> StoredHash<'a> {
    /// Reads the text of a hash. The salt of a `$7$` hash may have any characters but `$`. Does not
    /// allocate.
    ///
    /// Returns `EncodingInvalid` if `text` does not have its format. Errors of the parameters, the
    /// salt and the key are returned later, by the calls below.
    #[tactic(auto, unfolding(crate::specs::StoredHash::formatted, crate::specs::StoredHash::is_stored_text, crate::specs::StoredHash::reading, crate::specs::StoredHash::params_reading))]
    pub fn read(text: &'a str) -> Result<StoredHash<'a>>
        ensures exact { IsOk result ↔ IsTrue (is_stored_text text.now) }
        ensures ok { IfOk result (λ hash. hash ≡ text.now) }
        ensures err { IfErr result (λ e. e ≡ EncodingInvalid) }
        ensures reading { reading text.now ≡ with_refusal result and_then reading }
        ensures params { params_reading text.now ≡ with_refusal result and_then params_reading }
    {
        if is_mcf_text(text.as_bytes()) {
            let Ok(hash) = mcf::PasswordHashRef::new(text) else {
                return Err(Error::EncodingInvalid);
            };
            let parts = parts_of_mcf(&hash);
            let params = match &parts {
                Ok(parts) => Ok((parts.params, parts.key_len)),
                Err(error) => Err(*error),
            };
            return Ok(StoredHash {
                text,
                params,
                parts,
            });
        }
        let hash = phc::PasswordHash::new(text)?;
        let params = read_params(&hash);
        let parts = parts_of_phc(&hash, &params);
        let params = match params {
            Ok(params) => Ok((params, key_len(&hash))),
            Err(error) => Err(error),
        };
        Ok(StoredHash {
            text,
            params,
            parts,
        })
    }

    /// Returns the text that was read.
    pub fn as_str(&self) -> &'a str
        ensures value { result.now ≡ self.now }
        ensures stored { IsTrue (is_stored_text self.now) }
    {
        self.text
    }

    /// Returns `log_n`, `r` and `p` of the hash, with no length. A PHC hash without a salt or a key
    /// has parameters too. Does not allocate.
    ///
    /// Returns the first error of [`StoredHash::verify`] before it allocates, except
    /// `PasswordInvalid`.
    pub fn params(&self) -> Result<Params>
        ensures value { with_refusal result ≡ mapped (λ read. read.0) (params_reading self.now) }
    {
        match self.params_and_key_len() {
            Ok((params, _)) => Ok(params),
            Err(error) => Err(error),
        }
    }

    /// Verifies `password` with the parameters, the salt and the length of the key of the hash.
    /// Returns `Ok` only if the hash has the key of `password`, and `PasswordInvalid` only if it
    /// does not, or if the hash has no salt or no key.
    ///
    /// Returns the errors of `Scrypt::verify_password` for the format, in the same order.
    pub fn verify(&self, alloc: Global, password: &[u8]) -> Result<()>
        ensures verdict { IsVerdict password.now (reading self.now) (with_refusal result) }
    {
        self.verify_counted::<Target>(alloc, password, &mut CoreCount::new())
    }

    /// Returns whether the hash accepts `password`. A hash without a salt or a key accepts no
    /// password.
    ///
    /// Returns the other errors of [`StoredHash::verify`].
    pub fn accepts(&self, alloc: Global, password: &[u8]) -> Result<bool>
        ensures accepted { IfOk result (λ right. let_in (verdict password.now (reading self.now)) ≡ Ok right) }
        ensures err { IfErr result (λ e. (IsOk (reading self.now) × (e ≡ OutOfMemory))
            ⊎ (let_in (verdict password.now (reading self.now)) ≡ Err (refusal e))) }
    {
        match self.verify(alloc, password) {
            Ok(()) => Ok(true),
            Err(Error::PasswordInvalid) => Ok(false),
            Err(error) => Err(error),
        }
    }

    /// Verifies as [`StoredHash::verify`] does, by the backend `W`, and counts the `4 * N * r * p`
    /// cores of the hash's parameters, and the blocks that SHA-256 compresses: the same number as
    /// for deriving a key of the stored key's length.
    ///
    /// Unless the keys are compared, the count is unchanged.
    pub fn verify_counted<W: Backend>(
        &self,
        alloc: Global,
        password: &[u8],
        cores: &mut CoreCount,
    ) -> Result<()>
        ensures verdict { IsVerdict password.now (reading self.now) (with_refusal result) }
        ensures unread { OnErr (reading self.now) (cores.new ≡ cores.old) }
        ensures memory { IsErrOf result OutOfMemory → cores.new ≡ cores.old }
        ensures counted { IfOk (reading self.now) (λ s. (¬ IsErrOf result OutOfMemory)
            → AreCounted (cost_by s.params) cores.old cores.new) }
        ensures hashed { IfOk (reading self.now) (λ s. (¬ IsErrOf result OutOfMemory)
            → AreCompressed (verify_cost password.now s) cores.old cores.new) }
    {
        verify_allocating::<W>(alloc, password, self.parts()?, cores)
    }

    /// Returns whether `log_n`, `r`, `p` or the length of the key is below the parameters
    /// `wanted`, which ask for a key of 32 bytes if they have no length. One of the four suffices.
    /// Does not allocate.
    ///
    /// Returns the same errors as [`StoredHash::verify`] does before it allocates, in the same
    /// order.
    pub fn needs_rehash(&self, wanted: &Params) -> Result<bool>
        ensures weaker { with_refusal result ≡ weaker wanted.now (reading self.now) }
    {
        let parts = self.parts()?;
        Ok(parts.params.is_below(wanted, parts.key_len))
    }

    /// Verifies `password` as [`StoredHash::verify`] does, in the caller's buffers. Does not
    /// allocate.
    ///
    /// Each buffer is at least as long as [`BufferLens::of`](crate::BufferLens::of) returns for the
    /// parameters of the hash. Up to four chunks are interleaved, each with its own part of the table
    /// and of the scratch, if these are long enough. The call uses only the front of each buffer, and
    /// the rest is unchanged. The contents of the buffers before the call do not matter. Afterwards
    /// the used parts of `chunks` and `scratch` are zeros, and the used part of `table` is
    /// unspecified. `cores` counts the `4 * N * r * p` cores of the hash's parameters, and the blocks
    /// that SHA-256 compresses.
    ///
    /// Returns the same errors in the same order, but `BufferTooShort` instead of `OutOfMemory`:
    /// exactly if the hash can be read and a buffer is too short for it. Unless the keys are
    /// compared, the buffers and the count are unchanged.
    pub fn verify_with_buffers<W: Backend>(
        &self,
        password: &[u8],
        chunks: &mut [u8],
        table: &mut [u32],
        scratch: &mut [u32],
        cores: &mut CoreCount,
    ) -> std::result::Result<(), LimitedError>
        ensures verdict { with_limited_refusal result
            ≡ verdict_in (workspace_of chunks.old table.old scratch.old) password.now (reading self.now) }
        ensures left { IsLeft (reading self.now) (workspace_of chunks.old table.old scratch.old)
            (workspace_of chunks.new table.new scratch.new) }
        ensures counted { AreCounted (cores_in (workspace_of chunks.old table.old scratch.old)
            (reading self.now)) cores.old cores.new }
        ensures hashed { AreCompressed (hashed_in (workspace_of chunks.old table.old scratch.old)
            password.now (reading self.now)) cores.old cores.new }
    {
        verify_in_buffers::<W>(password, self.parts()?, chunks, table, scratch, cores)
    }

    /// Returns the result of [`StoredHash::params`], and the length of the key in bytes, or 0 if the
    /// hash has no key.
    pub fn params_and_key_len(&self) -> Result<(Params, usize)>
        ensures value { with_refusal result ≡ params_reading self.now }
    {
        match &self.params {
            Ok(read) => Ok(*read),
            Err(error) => Err(*error),
        }
    }

    /// Returns the parts of the hash, or the error of reading it.
    pub(crate) fn parts(&self) -> Result<&StoredParts<'a>>
        ensures { mapped (λ parts. stored parts.now) (with_refusal result) ≡ reading self.now }
    {
        match &self.parts {
            Ok(parts) => Ok(parts),
            Err(error) => Err(*error),
        }
    }
}

// Returns whether a text is `$7` or begins with `$7$`.
#[tactic(auto, unfolding(crate::specs::StoredHash::is_mcf_text))]
fn is_mcf_text(text: &[u8]) -> bool
    ensures { result ≡ is_mcf_text text.now }
{
    matches!(text, [b'$', b'7'] | [b'$', b'7', b'$', ..])
}

// Returns the length of the key of a hash, or 0 if it has no key.
fn key_len(hash: &phc::PasswordHash) -> usize
    ensures { result ≡ key_len_or_zero hash.now.hash }
{
    match &hash.hash {
        Some(key) => key.len(),
        None => 0,
    }
}
