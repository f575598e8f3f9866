// A key whose progress is shown.

ghost use Rattle.std.specs.Prelude.{◌≡◌, ◌<◌, OnOk, length};
ghost use Rattle.scrypt.specs.Terms.{key_by};

use crate::invocation::Machine;
use scrypt::{BufferLens, Buffers, DeriveError, Params, output_len_ok};
use std::alloc::Global;

// With SSE2 three interleaved chunks take the least time.
const MAX_TABLES: usize = 3;

// The maximum bytes of the three buffers together for several tables, where a caller sets no limit:
// four tables of 32 MiB fit, with scratch and chunks. More could exceed the memory limit of a
// container that allows one table.
const MAX_INTERLEAVED_MEM: usize = 129 << 20;

/// Derives a key of an allowed length in steps, each of about a hundredth of the work, and shows
/// each percentage at most once.
pub(crate) fn derive_shown<M: Machine>(
    alloc: Global,
    machine: &M,
    password: &[u8],
    salt: &[u8],
    params: &Params,
    key: &mut [u8],
) -> Result<(), DeriveError>
    ensures value { OnOk result (key.new ≡ key_by params.now password.now salt.now (length key.old)) }
{
    if !output_len_ok(key.len()) {
        return Err(DeriveError::InvalidOutputLen);
    }
    let most = BufferLens::for_tables(params, MAX_TABLES).bytes();
    let max_mem = most.min(MAX_INTERLEAVED_MEM as u128) as usize;
    let (tables, mut own) = Buffers::within(alloc, params, max_mem)?;
    let all = params.cores();
    let mut shown = 0u8;
    machine.show_progress(0);
    let go_on = |done: u128| {
        let percent = percent_of(done, all);
        if percent != shown {
            shown = percent;
            machine.show_progress(percent);
        }
        true
    };
    let count = mixes_of_hundredth(params, all, tables);
    match own.derive_key_in_steps(password, salt, params, count, go_on, key) {
        Ok(()) => Ok(()),
        Err(_) => unreachable!(),
    }
}

// Returns how many mixes of each of so many chunks are a hundredth of all cores, or 1 if one is
// more. A mix has `2 * r` cores.
fn mixes_of_hundredth(params: &Params, all: u128, tables: usize) -> usize
    ensures some { 0 < result }
{
    let of_mixes = 2 * u128::from(params.r()) * tables as u128;
    usize::try_from(all / (100 * of_mixes).max(1))
        .unwrap_or(usize::MAX)
        .max(1)
}

// Returns the percentage of what is done, of what there is in all.
fn percent_of(done: u128, all: u128) -> u8 {
    if all == 0 {
        return 100;
    }
    (done.saturating_mul(100) / all).min(100) as u8
}
