// Verifying in steps.

ghost use Rattle.std.specs.Prelude.{◌≡◌, ◌≤◌, ℕ, List, length, IfOk, OnErr};
ghost use Rattle.scrypt.specs.Terms.{AreHashed, IsUnderWay, chunks_bytes, mapped, pbkdf2_cost, reading, verdict};
ghost use Rattle.scrypt.specs.Terms.{with_refusal};

use super::StoredHash;
use crate::comparing::is_derived_key;
use crate::size::index;
use crate::verifying::accept_if;
use crate::{BufferLens, CoreCount, Progress};
use password_hash::Result;

impl<'a> StoredHash<'a> {
    /// Returns the salt of the hash, for [`begin`](crate::steps::begin). The salt of a `$7$` hash is
    /// its letters.
    ///
    /// Returns the errors of [`StoredHash::verify`] before it allocates.
    pub fn salt(&self) -> Result<&[u8]>
        ensures value { mapped (λ salt. salt.now) (with_refusal result) ≡ mapped (λ s. s.salt) (reading self.now) }
    {
        Ok(self.parts()?.salt.as_bytes())
    }

    /// Finishes a verification in steps, which [`begin`](crate::steps::begin) began with
    /// [`StoredHash::params`] and [`StoredHash::salt`]: the verdict of [`StoredHash::verify`], once
    /// all chunks are mixed. The buffers are the caller's to wipe.
    pub fn finish_verify(
        &self,
        password: &[u8],
        at: Progress,
        chunks: &[u8],
        cores: &mut CoreCount,
    ) -> Result<()>
        requires ended { IfOk (reading self.now) (λ s. at.chunks ≡ s.params.p) }
        requires chunks { IfOk (reading self.now) (λ s. chunks_bytes s.params.r s.params.p ≤ length chunks.now) }
        ensures verdict { (table : List ℕ) → (scratch : List ℕ)
            → IfOk (reading self.now)
            (λ s. IsUnderWay password.now s.salt s.params at chunks.now table scratch)
            → with_refusal result ≡ verdict password.now (reading self.now) }
        ensures counted { IfOk (reading self.now) (λ s. AreHashed (pbkdf2_cost (length password.now)
            (chunks_bytes s.params.r s.params.p) (length s.key)) cores.old cores.new) }
        ensures uncounted { OnErr (reading self.now) (cores.new ≡ cores.old) }
    {
        match self.parts() {
            Ok(parts) => {
                let (mixed, _) = chunks.split_at(index(BufferLens::of(&parts.params).chunks));
                accept_if(is_derived_key(password, mixed, parts, cores))
            }
            Err(refused) => Err(refused),
        }
    }
}
