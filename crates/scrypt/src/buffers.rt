// Buffers that a caller reuses from call to call. Their lengths are in `lens`, and `memory` has the
// part of them that a derivation uses.

ghost use Rattle.std.specs.Prelude.{◌≡◌, ◌⊎◌, ◌↔◌, ◌*◌, ◌/◌, ◌<◌, ◌≤◌, ℕ, All, length, map, min, replicate, sum_by, IfOk, IsErrOf, IsOk, IsTrue, OnErr, OnOk};
ghost use Rattle.scrypt.specs.Terms.{AreCompressed, AreCounted, AreFor, AreLeft, IsLeft, IsRestKept, IsStopped};
ghost use Rattle.scrypt.specs.Terms.{KeepLens, SufficeFor, WentOn, attempts, chunks_bytes, cores_in, cores_on, cost_by};
ghost use Rattle.scrypt.specs.Terms.{hashed_in, hashed_on, is_output_len, key_by, max_step, reading, reading_of};
ghost use Rattle.scrypt.specs.Terms.{scratch_words, table_words, tables_bytes, tables_within, verdict, verdict_in};
ghost use Rattle.scrypt.specs.Terms.{verdict_on, with_limited_refusal, within, workspace_in};
ghost use Rattle.scrypt.specs.declared.limits.Limits.{Limits};
ghost use Rattle.scrypt.specs.declared.errors.StepsError.TheVariants.{Cancelled, InvalidOutputLen as BadLength};

pub(crate) mod lens;
pub(crate) mod memory;

use crate::size::{Size, room};
use crate::verifying::verify_in_buffers;
use crate::{
    BufferLens, CoreCount, LimitedError, Limits, Login, Params, StepsError, StoredHash, Target,
    scrypt_in_steps, verify_logins,
};
use std::alloc::{AllocError, Global};

/// The three buffers of derivations, allocated once, for any parameters for which they are long
/// enough: a call uses the front of each. Only [`Buffers::allocate`], [`Buffers::within`] and
/// [`Buffers::for_limits`] allocate. Calls that take slices and a count of cores take
/// `&mut own.chunks`, `&mut own.table` and `&mut own.scratch`.
#[derive(Drop)]
pub struct Buffers {
    /// The chunks, in bytes.
    pub chunks: Vec<u8>,
    /// The table, in words.
    pub table: Vec<u32>,
    /// The scratch, in words.
    pub scratch: Vec<u32>,
}

impl Buffers {
    /// Allocates buffers of these lengths, filled with zeros.
    pub fn allocate(alloc: Global, lens: &BufferLens) -> Result<Buffers, AllocError>
        ensures chunks { IfOk result (λ own. own.chunks.items ≡ replicate lens.now.chunks 0) }
        ensures table { IfOk result (λ own. own.table.items ≡ replicate lens.now.table 0) }
        ensures scratch { IfOk result (λ own. own.scratch.items ≡ replicate lens.now.scratch 0) }
    {
        Ok(Buffers {
            chunks: vec![in alloc; 0u8; room(lens.chunks)?]?,
            table: vec![in alloc; 0u32; room(lens.table)?]?,
            scratch: vec![in alloc; 0u32; room(lens.scratch)?]?,
        })
    }

    /// Allocates buffers that are long enough for every derivation within these limits: for the
    /// default limits 16 MiB of chunks, 257 MiB of table and 32 MiB of scratch.
    pub fn for_limits(alloc: Global, limits: &Limits) -> Result<Buffers, AllocError>
        ensures chunks { IfOk result
            (λ own. length own.chunks.items ≡ min limits.now.max_mem limits.now.max_work) }
        ensures table { IfOk result (λ own. length own.table.items ≡ limits.now.max_mem / 4) }
        ensures scratch { IfOk result (λ own. length own.scratch.items
            ≡ min (limits.now.max_mem / 4) (limits.now.max_work / 2)) }
        ensures enough { IfOk result (λ own. SufficeFor limits.now own.chunks.items own.table.items own.scratch.items) }
    {
        let words = limits.max_mem / 4;
        let lens = BufferLens {
            chunks: limits.max_mem.min(limits.max_work as Size),
            table: words,
            scratch: words.min((limits.max_work / 2) as Size),
        };
        Buffers::allocate(alloc, &lens)
    }

    /// Allocates buffers with [`BufferLens::tables_within`] tables and that number of scratches, or
    /// with one of each if that fails, so that more than one fit into `max_mem` bytes together with
    /// the chunks. Also returns this number, of the chunks that are interleaved.
    pub fn within(
        alloc: Global,
        params: &Params,
        max_mem: Size,
    ) -> Result<(usize, Buffers), AllocError>
        ensures width { IfOk result (λ got. (got.0 ≡ tables_within max_mem params.now) ⊎ (got.0 ≡ 1)) }
        ensures fits { IfOk result (λ got. 1 < got.0 → tables_bytes params.now got.0 ≤ max_mem) }
        ensures chunks { IfOk result
            (λ got. length got.1.chunks.items ≡ chunks_bytes params.now.r params.now.p) }
        ensures table { IfOk result
            (λ got. length got.1.table.items ≡ got.0 * table_words params.now.log_n params.now.r) }
        ensures scratch { IfOk result (λ got. length got.1.scratch.items ≡ got.0 * scratch_words params.now.r) }
        ensures enough { IfOk result (λ got. AreFor params.now got.1) }
    {
        let width = BufferLens::tables_within(params, max_mem);
        if width > 1
            && let Ok(own) = Buffers::allocate(alloc, &BufferLens::for_tables(params, width))
        {
            return Ok((width, own));
        }
        Ok((1, Buffers::allocate(alloc, &BufferLens::of(params))?))
    }

    /// Writes the scrypt key of `password` and `salt` to `output`, in steps, as [`scrypt_in_steps`]
    /// does. The buffers have at least the lengths of [`BufferLens::of`].
    ///
    /// Returns `InvalidOutputLen` exactly if the length of `output` is not allowed, and `Cancelled`
    /// as soon as `go_on` returns `false`. On an error `output` is unchanged. The buffers are the
    /// caller's to wipe.
    pub fn derive_key_in_steps<F: FnMut(u128) -> bool>(
        &mut self,
        password: &[u8],
        salt: &[u8],
        params: &Params,
        count: usize,
        go_on: F,
        output: &mut [u8],
    ) -> Result<(), StepsError>
        requires some { 0 < count }
        requires callable { F.IsAlwaysCallable go_on }
        requires enough { AreFor params.now self.old }
        ensures length { IsErrOf result BadLength ↔ ¬ IsTrue (is_output_len (length output.old)) }
        ensures value { OnOk result (output.new ≡ key_by params.now password.now salt.now (length output.old)) }
        ensures shown { OnOk result ((last : F) × WentOn (λ f done on g. F.step f done on g)
            (max_step params.now count (length self.old.table.items) (length self.old.scratch.items))
            go_on (cost_by params.now) last) }
        ensures cancelled { IsErrOf result Cancelled → (done : ℕ) × IsStopped (λ f done on g. F.step f done on g)
            (max_step params.now count (length self.old.table.items) (length self.old.scratch.items)) go_on done }
        ensures refused { OnErr result (output.new ≡ output.old) }
        ensures rest { IsRestKept params.now (workspace_in self.old) (workspace_in self.new) }
        ensures lens { KeepLens self.old self.new }
    {
        let (chunks, table, scratch) = (&mut self.chunks, &mut self.table, &mut self.scratch);
        let cores = &mut CoreCount::new();
        scrypt_in_steps::<Target, F>(
            password, salt, params, count, go_on, chunks, table, scratch, output, cores,
        )
    }

    /// Verifies `password`, and counts the work, as [`StoredHash::verify_with_buffers`] does.
    ///
    /// Returns the errors of [`StoredHash::verify`] in the same order, but `BufferTooShort` instead
    /// of `OutOfMemory`: exactly if the hash can be read and a buffer is too short for it. So it
    /// never returns it for a hash within limits, in the buffers of [`Buffers::for_limits`].
    pub fn verify(
        &mut self,
        hash: &StoredHash<'_>,
        password: &[u8],
        cores: &mut CoreCount,
    ) -> Result<(), LimitedError>
        ensures verdict { with_limited_refusal result ≡ verdict_in (workspace_in self.old) password.now (reading hash.now) }
        ensures within { (limits : Limits)
            → SufficeFor limits self.old.chunks.items self.old.table.items self.old.scratch.items
            → IsOk (within limits (reading hash.now))
            → with_limited_refusal result ≡ verdict password.now (reading hash.now) }
        ensures left { IsLeft (reading hash.now) (workspace_in self.old) (workspace_in self.new) }
        ensures counted { AreCounted (cores_in (workspace_in self.old) (reading hash.now)) cores.old cores.new }
        ensures hashed { AreCompressed (hashed_in (workspace_in self.old) password.now (reading hash.now))
            cores.old cores.new }
        ensures lens { KeepLens self.old self.new }
    {
        let parts = hash.parts()?;
        parts.params.expose_invariant();
        let (chunks, table, scratch) = (&mut self.chunks, &mut self.table, &mut self.scratch);
        verify_in_buffers::<Target>(password, parts, chunks, table, scratch, cores)
    }

    /// Verifies each password, in one batch if possible, and counts the work, as
    /// [`verify_logins`](crate::verify_logins) does: `verdicts` has the length of `logins`, and gets
    /// the verdict of each login at the same index. No verdict is `BufferTooShort` if each hash
    /// is within limits, in the buffers of [`Buffers::for_limits`].
    pub fn verify_logins(
        &mut self,
        logins: &[Login<'_, '_>],
        verdicts: &mut [Result<(), LimitedError>],
        cores: &mut CoreCount,
    )
        requires len { length verdicts.old ≡ length logins.now }
        ensures verdicts { map with_limited_refusal verdicts.new
            ≡ map (verdict_on (workspace_in self.old)) (attempts logins.now) }
        ensures within { (limits : Limits)
            → SufficeFor limits self.old.chunks.items self.old.table.items self.old.scratch.items
            → All (λ login. within limits (reading_of login) ≡ reading_of login) logins.now
            → map with_limited_refusal verdicts.new ≡ map (λ a. verdict a.0 a.1) (attempts logins.now) }
        ensures left { AreLeft (attempts logins.now) (workspace_in self.old) (workspace_in self.new) }
        ensures counted { AreCounted (sum_by (cores_on (workspace_in self.old)) (attempts logins.now)) cores.old cores.new }
        ensures hashed { AreCompressed (sum_by (hashed_on (workspace_in self.old)) (attempts logins.now)) cores.old cores.new }
        ensures lens { KeepLens self.old self.new }
    {
        let (chunks, table, scratch) = (&mut self.chunks, &mut self.table, &mut self.scratch);
        verify_logins::<Target>(logins, verdicts, chunks, table, scratch, cores);
    }
}

/// Writes zeros to the buffers of a derivation.
///
/// They may hold a padded password, the derived key, and blocks that suffice to test passwords
/// without the cost of scrypt.
pub fn wipe(chunks: &mut [u8], table: &mut [u32], scratch: &mut [u32])
    ensures chunks { chunks.new ≡ replicate (length chunks.old) 0 }
    ensures table { table.new ≡ replicate (length table.old) 0 }
    ensures scratch { scratch.new ≡ replicate (length scratch.old) 0 }
{
    chunks.fill(0);
    table.fill(0);
    scratch.fill(0);
}
