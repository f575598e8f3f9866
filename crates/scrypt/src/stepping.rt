//! A derivation in steps, in the caller's buffers: between two steps the caller can show the
//! progress, or abandon the derivation.

ghost use Rattle.std.specs.Prelude.{◌≡◌, ◌↔◌, ℕ, ◌+◌, ◌-◌, ◌*◌, ◌<◌, ◌≤◌, List, drop, length, min, false, true, IsErrOf, IsOk, IsTrue, OnErr, OnOk};
ghost use Rattle.scrypt_kernel.specs.Diagonal.{pivot};
ghost use Rattle.scrypt_kernel.specs.Steps.{IsMixing, all_mixes};
ghost use Rattle.scrypt.specs.Terms.{AreCountedAs, AreHashed, AreMixable, AreMixed, CanGoOn, IsDerived, IsRestKept};
ghost use Rattle.scrypt.specs.Terms.{IsStopped, IsUnderWay, IsWithin, WentOn, chunks_bytes, cost_by, derived_key};
ghost use Rattle.scrypt.specs.Terms.{first_b, group_by, interleaved_chunks, is_output_len, lacking, max_step};
ghost use Rattle.scrypt.specs.Terms.{mixes_done, pbkdf2_cost, scratch_words, table_words, words_from, workspace_of};
ghost use Rattle.scrypt.specs.declared.errors.StepsError.TheVariants.{Cancelled, InvalidOutputLen as BadLength};

use crate::buffers::lens::interleaved_chunks;
use crate::derivation::mixing::group_by;
use crate::derivation::{derive_chunks, output_len_ok};
use crate::size::{Size, index};
use crate::{Backend, BufferLens, CoreCount, InvalidOutputLen, Params, StepsError};
use scrypt_kernel::order::diagonal::{Both, Diagonal, Scalars};
use scrypt_kernel::pbkdf2::pbkdf2_counted;
use scrypt_kernel::steps::{begin_chunks, end_chunks, step_chunks};
use std::simd::{u32x4, u32x8};

/// The progress of a derivation in steps. Each of its `p` chunks takes `2 * N` block mixes, of
/// `2 * r` cores each, and up to four chunks are interleaved.
#[repr(C)]
#[derive(Clone, Copy, Debug, PartialEq, Eq)]
pub struct Progress {
    /// The number of chunks that are mixed.
    pub chunks: usize,
    /// The number of chunks in the current group, which are interleaved. It is 0 once all chunks
    /// are mixed.
    pub interleaved: usize,
    /// The number of block mixes that are done for each chunk of this group.
    pub mixes: usize,
}

/// Begins a derivation in steps: step 1 (RFC 7914, section 6). No core is run yet.
///
/// Each buffer has at least its length of [`BufferLens::of`], and only its front is changed. Up to
/// four chunks are interleaved, each with its own part of the table and of the scratch, if these
/// are long enough ([`BufferLens::for_tables`]). The contents of the buffers before the call do not
/// matter. From then on they are only for [`step`] and [`finish`]; to abandon the
/// derivation, the caller only has to wipe them.
pub fn begin<W: Backend>(
    password: &[u8],
    salt: &[u8],
    params: &Params,
    chunks: &mut [u8],
    table: &mut [u32],
    scratch: &mut [u32],
    cores: &mut CoreCount,
) -> Progress
    requires chunks { chunks_bytes params.now.r params.now.p ≤ length chunks.old }
    requires table { table_words params.now.log_n params.now.r ≤ length table.old }
    requires scratch { scratch_words params.now.r ≤ length scratch.old }
    ensures start { (result.chunks ≡ 0) × (result.mixes ≡ 0) }
    ensures interleaved { result.interleaved ≡ group_by W.most W.scalar (interleaved_chunks params.now.log_n
        params.now.r params.now.p (length table.old) (length scratch.old)) params.now.p }
    ensures going { CanGoOn W.most W.scalar params.now result table.new scratch.new }
    ensures under_way { IsUnderWay password.now salt.now params.now result chunks.new table.new scratch.new }
    ensures rest { IsRestKept params.now (workspace_of chunks.old table.old scratch.old)
        (workspace_of chunks.new table.new scratch.new) }
    ensures counted { AreHashed (pbkdf2_cost (length password.now)
        (length salt.now) (chunks_bytes params.now.r params.now.p)) cores.old cores.new }
{
    params.expose_invariant();
    let (chunks, _) = chunks.split_at_mut(index(BufferLens::of(params).chunks));
    derive_chunks(password, salt, params, chunks, cores);
    begin_group::<W>(params, 0, chunks, table, scratch)
}

/// Continues a derivation: does `count` more block mixes of each chunk of the current group, or all
/// that are left, and counts their cores, `2 * r` each. Returns the new progress.
///
/// The buffers are the buffers of [`begin`], as it or the last step left them, `at` is the progress
/// that this call returned, and the backend is the same. With other buffers of these lengths the
/// call is safe too, and takes the same time.
pub fn step<W: Backend>(
    params: &Params,
    at: Progress,
    count: usize,
    chunks: &mut [u8],
    table: &mut [u32],
    scratch: &mut [u32],
    cores: &mut CoreCount,
) -> Progress
    requires going { CanGoOn W.most W.scalar params.now at table.old scratch.old }
    requires chunks { chunks_bytes params.now.r params.now.p ≤ length chunks.old }
    ensures going { CanGoOn W.most W.scalar params.now result table.new scratch.new }
    ensures under_way { (password : List ℕ) → (salt : List ℕ)
        → IsUnderWay password salt params.now at chunks.old table.old scratch.old
        → IsUnderWay password salt params.now result chunks.new table.new scratch.new }
    ensures rest { IsRestKept params.now (workspace_of chunks.old table.old scratch.old)
        (workspace_of chunks.new table.new scratch.new) }
    ensures ended { at.chunks ≡ params.now.p → result ≡ at }
    ensures going_on { at.chunks < params.now.p → count < lacking params.now at
        → result ≡ record at { mixes = at.mixes + count } }
    ensures next { at.chunks < params.now.p → lacking params.now at ≤ count
        → (result.chunks ≡ at.chunks + at.interleaved) × (result.mixes ≡ 0) }
    ensures same_group { result.chunks ≡ at.chunks → result.interleaved ≡ at.interleaved }
    ensures interleaved { at.chunks < result.chunks → result.chunks < params.now.p
        → result.interleaved ≡ group_by W.most W.scalar (interleaved_chunks params.now.log_n params.now.r params.now.p
        (length table.old) (length scratch.old)) (params.now.p - result.chunks) }
    ensures exact { mixes_done params.now result
        ≡ mixes_done params.now at + at.interleaved * min count (lacking params.now at) }
    ensures counted { AreCountedAs true (min count (lacking params.now at) * (at.interleaved * (2 * params.now.r)))
        cores.old cores.new }
{
    params.expose_invariant();
    if at.chunks == params.p() as usize {
        return at;
    }
    let n = at.interleaved;
    let mixes = mix_more::<W>(params, n, at.mixes, count, table, scratch, cores);
    if mixes < 2usize << params.log_n() {
        return Progress { mixes, ..at };
    }
    let (chunks, _) = chunks.split_at_mut(index(BufferLens::of(params).chunks));
    end_group(params, at.chunks, n, chunks, scratch);
    begin_group::<W>(params, at.chunks + n, chunks, table, scratch)
}

/// Returns whether a derivation with these parameters and this backend can have this progress, in
/// buffers that are long enough: at most `p` chunks are mixed or in the current group, and fewer
/// than `2 * N` block mixes are done for the group.
pub fn is_within<W: Backend>(params: &Params, at: Progress) -> bool
    ensures exact { IsTrue result ↔ (IsWithin params.now at × AreMixable W.most W.scalar at.interleaved) }
{
    params.expose_invariant();
    let count = params.p() as usize;
    if at.chunks > count
        || at.interleaved > count - at.chunks
        || at.mixes as Size >= Size::from(2u8) << params.log_n()
    {
        return false;
    }
    if at.interleaved > W::max_interleave() || W::is_scalar() && at.interleaved == 2 {
        return false;
    }
    if at.chunks == count {
        at.mixes == 0
    } else {
        at.interleaved > 0
    }
}

// Returns how many cores are done, of `4 * N * r * p` in all.
fn cores_done(params: &Params, at: Progress) -> u128
    requires within { IsWithin params.now at }
    ensures exact { result ≡ mixes_done params.now at * (2 * params.now.r) }
{
    params.expose_invariant();
    let mixed = (at.chunks as u128) << (params.log_n() + 1);
    let mixes = mixed + at.interleaved as u128 * at.mixes as u128;
    mixes * (2 * u128::from(params.r()))
}

/// Finishes a derivation in steps, once all chunks are mixed: step 3, which writes the key to
/// `output`. The buffers are the caller's to wipe.
///
/// Returns `InvalidOutputLen`, and changes nothing, exactly if the length of `output` is not
/// allowed ([`output_len_ok`](crate::output_len_ok)).
#[tactic(auto, using(crate::proofs::AcceptedFacts::output_len_bound))]
pub fn finish(
    password: &[u8],
    params: &Params,
    at: Progress,
    chunks: &[u8],
    output: &mut [u8],
    cores: &mut CoreCount,
) -> Result<(), InvalidOutputLen>
    requires ended { at.chunks ≡ params.now.p }
    requires chunks { chunks_bytes params.now.r params.now.p ≤ length chunks.now }
    ensures allowed { IsOk result ↔ IsTrue (is_output_len (length output.old)) }
    ensures value { OnOk result ((salt : List ℕ) → (table : List ℕ) → (scratch : List ℕ)
        → IsUnderWay password.now salt params.now at chunks.now table scratch → output.new
        ≡ derived_key password.now salt params.now.log_n params.now.r params.now.p (length output.old)) }
    ensures counted { OnOk result (AreHashed (pbkdf2_cost (length password.now)
        (chunks_bytes params.now.r params.now.p) (length output.old)) cores.old cores.new) }
    ensures refused { OnErr result (output.new ≡ output.old) }
    ensures uncounted { OnErr result (cores.new ≡ cores.old) }
{
    params.expose_invariant();
    if !output_len_ok(output.len()) {
        return Err(InvalidOutputLen);
    }
    let (mixed, _) = chunks.split_at(index(BufferLens::of(params).chunks));
    pbkdf2_counted(password, mixed, output, cores);
    Ok(())
}

/// Derives the key as [`scrypt_with_buffers`](crate::scrypt_with_buffers) does, by the backend `W`,
/// in steps of `count` block mixes of each chunk of a group. After each step it calls `go_on` with
/// the number of cores that are done, of `4 * N * r * p` in all.
///
/// Returns `InvalidOutputLen`, and changes nothing, exactly if the length of `output` is not
/// allowed, and `Cancelled` as soon as `go_on` returns `false`, and then `output` is unchanged. The
/// rest of each buffer is unchanged; its front is the caller's to wipe.
pub fn scrypt_in_steps<W: Backend, F: FnMut(u128) -> bool>(
    password: &[u8],
    salt: &[u8],
    params: &Params,
    count: usize,
    mut go_on: F,
    chunks: &mut [u8],
    table: &mut [u32],
    scratch: &mut [u32],
    output: &mut [u8],
    cores: &mut CoreCount,
) -> Result<(), StepsError>
    requires some { 0 < count }
    requires callable { F.IsAlwaysCallable go_on }
    requires chunks { chunks_bytes params.now.r params.now.p ≤ length chunks.old }
    requires table { table_words params.now.log_n params.now.r ≤ length table.old }
    requires scratch { scratch_words params.now.r ≤ length scratch.old }
    ensures length { IsErrOf result BadLength ↔ ¬ IsTrue (is_output_len (length output.old)) }
    ensures derived { OnOk result (IsDerived params.now password.now salt.now
        (cost_by params.now) output.old output.new cores.old cores.new) }
    ensures shown { OnOk result ((last : F) × WentOn (λ f done on g. F.step f done on g)
        (max_step params.now count (length table.old) (length scratch.old)) go_on (cost_by params.now) last) }
    ensures cancelled { IsErrOf result Cancelled → (done : ℕ) × IsStopped (λ f done on g. F.step f done on g)
        (max_step params.now count (length table.old) (length scratch.old)) go_on done
        × (cores.new.all ≡ cores.old.all + done) }
    ensures rest { IsRestKept params.now (workspace_of chunks.old table.old scratch.old)
        (workspace_of chunks.new table.new scratch.new) }
    ensures refused { OnErr result (output.new ≡ output.old) }
    ensures unchanged { IsErrOf result BadLength → (cores.new ≡ cores.old)
        × (workspace_of chunks.new table.new scratch.new ≡ workspace_of chunks.old table.old scratch.old) }
{
    if !output_len_ok(output.len()) {
        return Err(StepsError::InvalidOutputLen);
    }
    params.expose_invariant();
    let mut at = begin::<W>(password, salt, params, chunks, table, scratch, cores);
    'steps: while at.chunks < params.p() as usize {
        at = step::<W>(params, at, count, chunks, table, scratch, cores);
        if !go_on(cores_done(params, at)) {
            return Err(StepsError::Cancelled);
        }
    }
    let Ok(()) = finish(password, params, at, chunks, output, cores) else {
        unreachable!();
    };
    Ok(())
}

// Does `count` more mixes of each of `n` chunks, after the first `done`, or all that are left.
// Returns how many are done then.
fn mix_more<W: Backend>(
    params: &Params,
    n: usize,
    done: usize,
    count: usize,
    table: &mut [u32],
    scratch: &mut [u32],
    cores: &mut CoreCount,
) -> usize
    requires some { 0 < n }
    requires few { n ≤ 4 }
    requires mixable { AreMixable W.most W.scalar n }
    requires done { done ≤ all_mixes params.now.log_n }
    requires table { n * table_words params.now.log_n params.now.r ≤ length table.old }
    requires scratch { n * scratch_words params.now.r ≤ length scratch.old }
    ensures done { result ≡ min (done + count) (all_mixes params.now.log_n) }
    ensures mixed { (b : ℕ → List ℕ)
        → IsMixing pivot n b (32 * params.now.r) params.now.log_n done table.old scratch.old
        → IsMixing pivot n b (32 * params.now.r) params.now.log_n result table.new scratch.new }
    ensures table_rest { let used = n * table_words params.now.log_n params.now.r in
        drop used table.new ≡ drop used table.old }
    ensures scratch_rest { drop (n * scratch_words params.now.r) scratch.new ≡ drop (n * scratch_words params.now.r) scratch.old }
    ensures counted { AreCountedAs true (min count (all_mixes params.now.log_n - done) * (n * (2 * params.now.r)))
        cores.old cores.new }
{
    let r = params.r() as usize;
    let log_n = params.log_n();
    // A backend's results are constants, so that the compiler leaves out the groups that it never
    // mixes.
    let most = W::max_interleave();
    match n {
        1 if W::is_scalar() => {
            step_chunks::<Diagonal<Scalars>>(r, table, scratch, log_n, done, count, cores)
        }
        1 => step_chunks::<Diagonal<u32x4>>(r, table, scratch, log_n, done, count, cores),
        2 if !W::is_scalar() => {
            step_chunks::<Diagonal<u32x8>>(r, table, scratch, log_n, done, count, cores)
        }
        3 if most > 2 => step_chunks::<Diagonal<Both<u32x8, u32x4>>>(
            r, table, scratch, log_n, done, count, cores,
        ),
        4 if most > 3 => step_chunks::<Diagonal<Both<u32x8, u32x8>>>(
            r, table, scratch, log_n, done, count, cores,
        ),
        _ => unreachable!(),
    }
}

// Begins the next group after the first `i` chunks, if any chunk is left.
fn begin_group<W: Backend>(
    params: &Params,
    i: usize,
    chunks: &[u8],
    table: &mut [u32],
    scratch: &mut [u32],
) -> Progress
    requires inside { i ≤ params.now.p }
    requires chunks { length chunks.now ≡ chunks_bytes params.now.r params.now.p }
    requires table { table_words params.now.log_n params.now.r ≤ length table.old }
    requires scratch { scratch_words params.now.r ≤ length scratch.old }
    ensures start { (result.chunks ≡ i) × (result.mixes ≡ 0) }
    ensures interleaved { i < params.now.p → result.interleaved ≡ group_by W.most W.scalar
        (interleaved_chunks params.now.log_n params.now.r params.now.p (length table.old) (length scratch.old))
        (params.now.p - i) }
    ensures going { CanGoOn W.most W.scalar params.now result table.new scratch.new }
    ensures under_way { (password : List ℕ) → (salt : List ℕ)
        → AreMixed (first_b password salt params.now) params.now.log_n params.now.r i chunks.now
        → IsUnderWay password salt params.now result chunks.now table.new scratch.new }
    ensures rest { IsRestKept params.now (workspace_of chunks.now table.old scratch.old)
        (workspace_of chunks.now table.new scratch.new) }
{
    params.expose_invariant();
    let count = params.p() as usize;
    if i == count {
        return Progress {
            chunks: i,
            interleaved: 0,
            mixes: 0,
        };
    }
    let tables = interleaved_chunks(params, count, table.len(), scratch.len());
    let n = group_by::<W>(tables, count - i);
    write_first_rows(params, i, n, chunks, table, scratch);
    Progress {
        chunks: i,
        interleaved: n,
        mixes: 0,
    }
}

// Begins the `n` chunks after the first `i`.
fn write_first_rows(
    params: &Params,
    i: usize,
    n: usize,
    chunks: &[u8],
    table: &mut [u32],
    scratch: &mut [u32],
)
    requires some { 0 < n }
    requires inside { i * (128 * params.now.r) + n * (128 * params.now.r) ≤ length chunks.now }
    requires table { n * table_words params.now.log_n params.now.r ≤ length table.old }
    requires scratch { n * scratch_words params.now.r ≤ length scratch.old }
    ensures begun { (b : List ℕ) → AreMixed b params.now.log_n params.now.r i chunks.now
        → IsMixing pivot n (words_from b params.now.r i) (32
        * params.now.r) params.now.log_n 0 table.new scratch.new }
    ensures table_rest { let used = n * table_words params.now.log_n params.now.r in
        drop used table.new ≡ drop used table.old }
    ensures scratch_rest { drop (n * scratch_words params.now.r) scratch.new ≡ drop (n * scratch_words params.now.r) scratch.old }
{
    let r = params.r() as usize;
    let at = i * (128 * r);
    begin_chunks::<Diagonal<u32x4>>(n, &chunks[at..at + n * (128 * r)], r, table, scratch);
}

// Ends the `n` chunks after the first `i`.
fn end_group(params: &Params, i: usize, n: usize, chunks: &mut [u8], scratch: &mut [u32])
    requires some { 0 < n }
    requires inside { i * (128 * params.now.r) + n * (128 * params.now.r) ≤ length chunks.old }
    requires scratch { n * scratch_words params.now.r ≤ length scratch.old }
    ensures mixed { (b : List ℕ) → (table : List ℕ) → AreMixed b params.now.log_n params.now.r i chunks.old
        → IsMixing pivot n (words_from b params.now.r i) (32
        * params.now.r) params.now.log_n (all_mixes params.now.log_n) table scratch.old → AreMixed b
        params.now.log_n params.now.r (i + n) chunks.new }
    ensures scratch_rest { drop (n * scratch_words params.now.r) scratch.new ≡ drop (n * scratch_words params.now.r) scratch.old }
{
    let r = params.r() as usize;
    let at = i * (128 * r);
    end_chunks::<Diagonal<u32x4>>(n, &mut chunks[at..at + n * (128 * r)], r, scratch);
}
