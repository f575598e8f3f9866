//! The memory and work that a call needs, checked against limits before anything is allocated.

ghost use Rattle.std.specs.Prelude.{◌≡◌, ◌≢◌, ◌↔◌, ◌⊎◌, IfOk, OnErr, IsTrue, length};
ghost use Rattle.scrypt.specs.Terms.{AreMostTables, are_accepted, limits_for_new};
ghost use Rattle.scrypt_c.specs.{IsNeedStatus, bytes_reading, cost_of, cost_status, limited_reading, limits_of, params_of};

use crate::statuses::{INVALID_PARAMS, OK, TOO_COSTLY, limited_status_of, unread_status_of};
use crate::texts::{stored_hash, whole_params};
use scrypt::{BufferLens, Limits, Params, Size};

/// The cost of a derivation: its parameters; the length of the key if it is the key of a hash; the
/// number of tables and scratches that it can use, from 1 to 4 and not above `p`; the length of the
/// chunks in bytes, and of one table and one scratch in words; the size of its buffers in bytes,
/// with one table; and its work. Size and work are capped at `2^64 - 1`.
#[repr(C)]
#[derive(Clone, Copy)]
pub struct Cost {
    pub log_n: u32,
    pub r: u32,
    pub p: u32,
    pub key_len: Size,
    pub tables: Size,
    pub chunks_len: Size,
    pub table_len: Size,
    pub scratch_len: Size,
    pub bytes: u64,
    pub work: u64,
}

/// Writes to `cost` what verifying with the text of a hash needs, if the buffers may have
/// `max_mem` bytes in total. Does not allocate.
///
/// Returns `OK`, or the first of these: the errors of `scrypt_verify_limited` for a hash that cannot
/// be read, but `OUTPUT_SIZE` if it has no salt or no key, and then nothing is written;
/// `TOO_COSTLY` if the buffers with one table have more than `max_mem` bytes in total, or if the
/// work, `4 * (2^log_n + 32) * r * p`, exceeds `max_work`; and `KEY_TOO_SHORT` if the key has
/// fewer than `min_key_len` bytes. These two write the same as `OK`; `tables` is 1 if even one
/// table does not fit.
#[unsafe(no_mangle)]
pub extern "C" fn scrypt_hash_cost(
    text: &[u8],
    max_mem: Size,
    max_work: u64,
    min_key_len: usize,
    cost: &mut Cost,
) -> i32
    ensures status { result ≡ cost_status (limited_reading max_mem max_work min_key_len text.now) }
    ensures read { IfOk (bytes_reading text.now) (λ s. cost.new ≡ cost_of max_mem s.params (length s.key)) }
    ensures tables { IfOk (bytes_reading text.now) (λ s. AreMostTables max_mem s.params cost.new.tables) }
    ensures unread { OnErr (bytes_reading text.now) (cost.new ≡ cost.old) }
{
    let hash = match stored_hash(text) {
        Ok(hash) => hash,
        Err(error) => return unread_status_of(error),
    };
    let (params, len) = match whole_params(&hash) {
        Ok(read) => read,
        Err(error) => return unread_status_of(error),
    };
    *cost = cost_of(&params, len, max_mem);
    let limits = Limits {
        max_mem,
        max_work,
        min_key_len,
    };
    match hash.within(&limits) {
        Ok(_) => OK,
        Err(error) => limited_status_of(error),
    }
}

/// Writes to `cost` what a derivation with these parameters needs, if the buffers may have
/// `max_mem` bytes in total. Does not allocate.
///
/// Returns `OK`, or the first of these: `INVALID_PARAMS` if the parameters are not accepted, and
/// then nothing is written; and `TOO_COSTLY` as `scrypt_hash_cost` does, which writes the same as
/// `OK`.
#[unsafe(no_mangle)]
pub extern "C" fn scrypt_params_cost(
    log_n: u8,
    r: u32,
    p: u32,
    max_mem: Size,
    max_work: u64,
    cost: &mut Cost,
) -> i32
    ensures status { IsNeedStatus max_mem max_work log_n r p result }
    ensures cost { result ≢ INVALID_PARAMS → cost.new ≡ cost_of max_mem (params_of log_n r p) 0 }
    ensures tables { result ≢ INVALID_PARAMS → AreMostTables max_mem (params_of log_n r p) cost.new.tables }
    ensures refused { result ≡ INVALID_PARAMS → cost.new ≡ cost.old }
{
    let Ok(params) = Params::new(log_n, r, p) else {
        return INVALID_PARAMS;
    };
    *cost = cost_of(&params, 0, max_mem);
    let limits = Limits {
        max_mem,
        max_work,
        min_key_len: 0,
    };
    if !limits.allow(&params) {
        return TOO_COSTLY;
    }
    OK
}

// Returns what a derivation with these parameters needs.
fn cost_of(params: &Params, key_len: usize, max_mem: Size) -> Cost
    ensures value { result ≡ cost_of max_mem params.now key_len }
    ensures tables { AreMostTables max_mem params.now result.tables }
{
    let lens = BufferLens::of(params);
    Cost {
        log_n: u32::from(params.log_n()),
        r: params.r(),
        p: params.p(),
        key_len: key_len as Size,
        tables: BufferLens::tables_within(params, max_mem) as Size,
        chunks_len: lens.chunks,
        table_len: lens.table,
        scratch_len: lens.scratch,
        bytes: lens.bytes().min(u128::from(u64::MAX)) as u64,
        work: params.work().min(u128::from(u64::MAX)) as u64,
    }
}

/// Returns the default limits of a hasher that makes hashes with these parameters and keys of
/// `key_len` bytes: `Limits::DEFAULT`, raised where necessary to admit such hashes. Does not
/// allocate.
///
/// Returns `OK`, or `INVALID_PARAMS` if the parameters are not accepted, and then no limit is
/// written.
#[unsafe(no_mangle)]
pub extern "C" fn scrypt_default_limits(
    log_n: u8,
    r: u32,
    p: u32,
    key_len: usize,
    max_mem: &mut Size,
    max_work: &mut u64,
    min_key_len: &mut usize,
) -> i32
    ensures status { (result ≡ INVALID_PARAMS) ↔ (¬ IsTrue (are_accepted log_n r p)) }
    ensures one { (result ≡ OK) ⊎ (result ≡ INVALID_PARAMS) }
    ensures limits { result ≡ OK → limits_of max_mem.new max_work.new min_key_len.new
        ≡ limits_for_new Limits.DEFAULT (params_of log_n r p) key_len }
    ensures refused { result ≢ OK
        → (max_mem.new ≡ max_mem.old) × (max_work.new ≡ max_work.old) × (min_key_len.new ≡ min_key_len.old) }
{
    match Params::new(log_n, r, p) {
        Ok(params) => {
            let limits = Limits::for_new(&params, key_len);
            *max_mem = limits.max_mem;
            *max_work = limits.max_work;
            *min_key_len = limits.min_key_len;
            OK
        }
        Err(_) => INVALID_PARAMS,
    }
}
