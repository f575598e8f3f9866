// Verifying several passwords in one workspace, in one batch if possible.

ghost use Rattle.std.specs.Prelude.{◌≡◌, ◌∷◌, List, ◌+◌, ◌*◌, ◌<◌, length, map, IfSome, IsTrue, None, Some, true, false, sum_by};
ghost use Rattle.scrypt.specs.Terms.{AreCompressed, AreCounted, AreHashed, AreLeft, Attempt, IsAlone, IsLeft, IsReady};
ghost use Rattle.scrypt.specs.Terms.{IsSpent, all_cost, all_of, attempt_of, attempts, bytes_if_ok, chunks_cost};
ghost use Rattle.scrypt.specs.Terms.{chunks_of, compare_cost, cores_on, cost_if_ok, count_of, hashed_on, mapped};
ghost use Rattle.scrypt.specs.Terms.{mixed_of, params_of, reading_of, shared, stored, verdict, verdict_on};
ghost use Rattle.scrypt.specs.Terms.{verify_cores, verify_cost, with_limited_refusal, workspace_of};
ghost use Rattle.scrypt_kernel.specs.Memory.{buffer_room};

use crate::buffers::memory::{ActiveBuffers, with_prefix};
use crate::comparing::is_derived_key;
use crate::derivation::derive_chunks;
use crate::derivation::mixing::mix_all;
use crate::errors::LimitedError;
use crate::size::index;
use crate::stored_parts::StoredParts;
use crate::verifying::{accept_if, limited, verify_in_buffers};
use crate::{Backend, BufferLens, CoreCount, Decoy, Params, StoredHash};
use scrypt_kernel::memory::Buffer;

/// What the password of a login is verified against.
#[derive(Drop)]
pub enum LoginHash<'t> {
    /// The hash that is stored for the name.
    Stored(StoredHash<'t>),
    /// Nothing is stored for the name.
    Decoy(Decoy<'t>),
}

/// A password and the stored hash that it is verified against.
#[derive(Drop)]
pub struct Login<'p, 't> {
    /// The password.
    pub password: &'p [u8],
    /// The hash or a decoy, or the error of reading its text or of [`StoredHash::within`].
    pub hash: Result<LoginHash<'t>, LimitedError>,
}

impl<'p, 't> Login<'p, 't> {
    // Returns the parts of the hash, the error that the login has instead of a hash, or the error
    // of reading the hash.
    fn parts(&self) -> Result<&StoredParts<'t>, LimitedError>
        ensures { mapped (λ parts. stored parts.now) (with_limited_refusal result) ≡ reading_of self.now }
    {
        let hash = match &self.hash {
            Ok(LoginHash::Stored(hash)) => hash,
            Ok(LoginHash::Decoy(decoy)) => return Ok(decoy.parts()),
            Err(refused) => return Err(*refused),
        };
        Ok(hash.parts()?)
    }

    // Returns the parameters of the derivation, or `None` if the hash is an error.
    fn params(&self) -> Option<Params>
        ensures { result ≡ params_of (reading_of self.now) }
    {
        Some(self.parts().ok()?.params)
    }

    // Returns `count` plus the number of its chunks, if it has this `N` and this `r`, or `count` if
    // the hash is an error.
    #[tactic(auto, unfolding(crate::specs::Logins::with_more))]
    fn count_with(&self, params: &Params, count: u32) -> Option<u32>
        ensures { (others : List Attempt) → count_of params.now others ≡ Some count
            → result ≡ count_of params.now (attempt_of self.now ∷ others) }
    {
        let Some(hash_params) = self.params() else {
            return Some(count);
        };
        if hash_params.log_n() != params.log_n() || hash_params.r() != params.r() {
            return None;
        }
        hash_params.p().checked_add(count)
    }

    // Returns the length of its chunks in bytes.
    #[tactic(auto, using(crate::proofs::LoginFacts::lens_of_chunks))]
    fn chunks_len(&self) -> usize
        ensures value { result ≡ length (bytes_if_ok chunks_of (attempt_of self.now)) }
        ensures mixed { result ≡ length (bytes_if_ok mixed_of (attempt_of self.now)) }
    {
        match self.params() {
            Some(params) => {
                params.expose_invariant();
                index(BufferLens::of(&params).chunks)
            }
            None => 0,
        }
    }

    // Step 1: `chunks` becomes its chunks.
    #[tactic(auto, using(crate::proofs::LoginFacts::lens_of_chunks))]
    fn derive_chunks(&self, chunks: &mut [u8], cores: &mut CoreCount)
        requires len { length chunks.old ≡ length (bytes_if_ok chunks_of (attempt_of self.now)) }
        ensures value { chunks.new ≡ bytes_if_ok chunks_of (attempt_of self.now) }
        ensures counted { AreHashed (cost_if_ok chunks_cost (attempt_of self.now)) cores.old cores.new }
    {
        if let Ok(parts) = self.parts() {
            let salt = parts.salt.as_bytes();
            derive_chunks(self.password, salt, &parts.params, chunks, cores);
        }
    }

    // Step 3: returns the verdict, given its mixed chunks.
    #[tactic(auto, using(crate::proofs::LoginFacts::lens_of_chunks))]
    fn compare(&self, mixed: &[u8], cores: &mut CoreCount) -> Result<(), LimitedError>
        requires mixed { mixed.now ≡ bytes_if_ok mixed_of (attempt_of self.now) }
        ensures counted { AreHashed (cost_if_ok compare_cost (attempt_of self.now)) cores.old cores.new }
        ensures verdict { with_limited_refusal result ≡ verdict self.now.password.now (reading_of self.now) }
    {
        let parts = self.parts()?;
        parts.params.expose_invariant();
        limited(accept_if(is_derived_key(self.password, mixed, parts, cores)))
    }

    // Verifies this password separately.
    fn verify_alone<W: Backend>(
        &self,
        chunks: &mut [u8],
        table: &mut [u32],
        scratch: &mut [u32],
        cores: &mut CoreCount,
    ) -> Result<(), LimitedError>
        ensures verdict { with_limited_refusal result
            ≡ verdict_on (workspace_of chunks.old table.old scratch.old) (attempt_of self.now) }
        ensures left { IsLeft (reading_of self.now) (workspace_of chunks.old table.old scratch.old)
            (workspace_of chunks.new table.new scratch.new) }
        ensures counted { AreCounted (cores_on (workspace_of chunks.old table.old scratch.old)
            (attempt_of self.now)) cores.old cores.new }
        ensures hashed { AreCompressed (hashed_on (workspace_of chunks.old table.old scratch.old)
            (attempt_of self.now)) cores.old cores.new }
    {
        verify_in_buffers::<W>(self.password, self.parts()?, chunks, table, scratch, cores)
    }
}

/// Verifies each password as [`StoredHash::verify_with_buffers`] verifies it in these buffers, so
/// each verdict is independent of the other logins. A decoy is verified in the same way. If a login
/// has an error instead of a hash, its verdict is this error, without any work. `verdicts` has the
/// length of `logins`, and gets the verdict of each login at the same index. Does not allocate.
///
/// If all hashes that are not errors have the `N` and the `r` of the first, and each buffer is long
/// enough for one derivation with the chunks of all, their keys are derived in one batch: up to
/// four chunks are interleaved, each with its own part of the table and of the scratch. Otherwise
/// the first is verified separately, and then the rest in the same way. Afterwards the used parts
/// of `chunks` and `scratch` are zeros. `cores` counts the `4 * N * r * p` cores of each hash whose
/// keys are compared, and the blocks that SHA-256 compresses, the same number as for verifying each
/// separately.
pub fn verify_logins<W: Backend>(
    logins: &[Login<'_, '_>],
    verdicts: &mut [Result<(), LimitedError>],
    chunks: &mut [u8],
    table: &mut [u32],
    scratch: &mut [u32],
    cores: &mut CoreCount,
)
    requires len { length verdicts.old ≡ length logins.now }
    ensures verdicts { map with_limited_refusal verdicts.new
        ≡ map (verdict_on (workspace_of chunks.old table.old scratch.old)) (attempts logins.now) }
    ensures left { AreLeft (attempts logins.now) (workspace_of chunks.old table.old scratch.old)
        (workspace_of chunks.new table.new scratch.new) }
    ensures counted { AreCounted (sum_by (cores_on (workspace_of chunks.old table.old scratch.old))
        (attempts logins.now)) cores.old cores.new }
    ensures hashed { AreCompressed (sum_by (hashed_on (workspace_of chunks.old table.old scratch.old))
        (attempts logins.now)) cores.old cores.new }
{
    let mut left = logins;
    let mut at = 0;
    while let Some((login, _)) = left.split_first() {
        if verified_in_batch::<W>(left, &mut verdicts[at..], chunks, table, scratch, cores) {
            return;
        }
        verdicts[at] = login.verify_alone::<W>(chunks, table, scratch, cores);
        at += 1;
        left = &left[1..];
    }
}

// Verifies all in one batch and returns true, or returns false if a buffer is too short for that,
// or there is no login.
fn verified_in_batch<W: Backend>(
    logins: &[Login<'_, '_>],
    verdicts: &mut [Result<(), LimitedError>],
    chunks: &mut [u8],
    table: &mut [u32],
    scratch: &mut [u32],
    cores: &mut CoreCount,
) -> bool
    requires len { length verdicts.old ≡ length logins.now }
    ensures verdicts { IsTrue result → map with_limited_refusal verdicts.new
        ≡ map (verdict_on (workspace_of chunks.old table.old scratch.old)) (attempts logins.now) }
    ensures left { IsTrue result → AreLeft (attempts logins.now) (workspace_of chunks.old table.old scratch.old)
        (workspace_of chunks.new table.new scratch.new) }
    ensures counted { IsTrue result → AreCounted (sum_by (cores_on (workspace_of chunks.old table.old scratch.old))
        (attempts logins.now)) cores.old cores.new }
    ensures hashed { IsTrue result → AreCompressed (sum_by (hashed_on (workspace_of chunks.old table.old scratch.old))
        (attempts logins.now)) cores.old cores.new }
    ensures alone { result ≡ false → IsAlone (attempts logins.now) (workspace_of chunks.old table.old scratch.old) }
    ensures kept { result ≡ false → verdicts.new ≡ verdicts.old }
    ensures unchanged { result ≡ false
        → (chunks.new ≡ chunks.old) × (table.new ≡ table.old) × (scratch.new ≡ scratch.old)
        × (cores.new ≡ cores.old) }
{
    let Some((params, count)) = shared_params(logins) else {
        return false;
    };
    let p = &params;
    let run = |used: &mut ActiveBuffers<'_, Buffer<'_>>, verdicts: &mut [_]| {
        verify_in_batch::<W>(logins, verdicts, p, count, used)
    };
    let verified = with_prefix(p, count, chunks, table, scratch, cores, verdicts, run);
    match verified {
        Some(()) => true,
        None => false,
    }
}

// Returns the parameters of the first, and the number of all chunks, if all keys can be derived in
// one batch.
#[tactic(auto, unfolding(crate::specs::Logins::with_more))]
fn shared_params(logins: &[Login<'_, '_>]) -> Option<(Params, u32)>
    ensures some { IfSome result (λ got. 0 < got.1) }
    ensures count { IfSome result (λ got. count_of got.0 (attempts logins.now) ≡ Some got.1) }
    ensures shared { IfSome result (λ got. shared (attempts logins.now) ≡ Some (record got.0 { p = got.1 })) }
    ensures none { result ≡ None → shared (attempts logins.now) ≡ None }
{
    let (first, rest) = logins.split_first()?;
    let params = first.params()?;
    let count = params.p().checked_add(count_of(&params, rest)?)?;
    Some((params, count))
}

// Returns the number of chunks of all, if each hash that is not an error has this `N` and this `r`.
fn count_of(params: &Params, logins: &[Login<'_, '_>]) -> Option<u32>
    ensures { result ≡ count_of params.now (attempts logins.now) }
{
    let mut count = 0;
    for i in (0..logins.len()).rev() {
        count = logins[i].count_with(params, count)?;
    }
    Some(count)
}

// Derives all keys in one batch and compares them. Afterwards the chunks and the scratch are zeros.
#[tactic(auto, using(crate::proofs::LoginFacts::chunks_together))]
fn verify_in_batch<W: Backend>(
    logins: &[Login<'_, '_>],
    verdicts: &mut [Result<(), LimitedError>],
    params: &Params,
    count: u32,
    used: &mut ActiveBuffers<'_, Buffer<'_>>,
)
    requires len { length verdicts.old ≡ length logins.now }
    requires count { count_of params.now (attempts logins.now) ≡ Some count }
    requires ready { IsReady buffer_room params.now.log_n 0 params.now.r count used.old }
    ensures verdicts { map with_limited_refusal verdicts.new ≡ map (λ a. verdict a.0 a.1) (attempts logins.now) }
    ensures spent { IsSpent buffer_room used.old used.new }
    ensures counted { AreCounted (all_cost verify_cores (attempts logins.now)) used.old.cores.now used.new.cores.now }
    ensures hashed { AreCompressed (all_cost verify_cost (attempts logins.now)) used.old.cores.now used.new.cores.now }
{
    params.expose_invariant();
    derive_all_chunks(logins, used.chunks, used.cores);
    mix_all::<Buffer<'_>, W>(params, 0, count as usize, used);
    // Borrowed mutably for the same reason as in `derive_in`.
    let mixed = &mut *used.chunks;
    compare(logins, mixed, verdicts, used.cores);
    used.chunks.fill(0);
    used.scratch.fill(0);
}

// Step 1: `chunks` becomes the chunks of all.
fn derive_all_chunks(logins: &[Login<'_, '_>], chunks: &mut [u8], cores: &mut CoreCount)
    requires len { length chunks.old ≡ length (all_of chunks_of (attempts logins.now)) }
    ensures value { chunks.new ≡ all_of chunks_of (attempts logins.now) }
    ensures counted { AreHashed (all_cost chunks_cost (attempts logins.now)) cores.old cores.new }
{
    let mut left = logins;
    let mut at = 0;
    while let Some((login, _)) = left.split_first() {
        let end = at + login.chunks_len();
        login.derive_chunks(&mut chunks[at..end], cores);
        at = end;
        left = &left[1..];
    }
}

// Step 3: compares each stored key with the key that its mixed chunks give.
fn compare(
    logins: &[Login<'_, '_>],
    mixed: &[u8],
    verdicts: &mut [Result<(), LimitedError>],
    cores: &mut CoreCount,
)
    requires len { length verdicts.old ≡ length logins.now }
    requires mixed { mixed.now ≡ all_of mixed_of (attempts logins.now) }
    ensures verdicts { map with_limited_refusal verdicts.new ≡ map (λ a. verdict a.0 a.1) (attempts logins.now) }
    ensures counted { AreHashed (all_cost compare_cost (attempts logins.now)) cores.old cores.new }
{
    let mut left = logins;
    let mut rest = mixed;
    let mut at = 0;
    while let Some((login, _)) = left.split_first() {
        let (chunks, others) = rest.split_at(login.chunks_len());
        verdicts[at] = login.compare(chunks, cores);
        at += 1;
        left = &left[1..];
        rest = others;
    }
}
