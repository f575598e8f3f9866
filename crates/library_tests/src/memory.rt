// The number of tables that the calls allocate, and their success at large sizes.

use crate::verdicts::{is_mcf_verdict, is_phc_verdict};
use crate::{holds, is};
use password_hash::{PasswordHasher, PasswordVerifier, mcf, phc};
use scrypt::{CoreCount, Kdf, Params, Scrypt, Simd, scrypt, scrypt_with_max_mem};
use std::alloc::Global;
use std::fs;
use std::test::Fail;

// The table, the scratch and the chunks at (15, 8, 4), in bytes. Memory for such a table is
// returned to the system as soon as it is freed.
const TABLE: usize = 1 << 25;

const EACH: usize = TABLE + 2048;

const CHUNKS: usize = 4096;

// A limit on the size of the buffers, the number of tables that are then allocated, and the reason
// for the row.
static TABLES: [(usize, usize, &str); 6] = [
    (0, 1, "one table for four chunks, in each call so far"),
    (2 * EACH + CHUNKS - 1, 1, "a byte too few for two"),
    (2 * EACH + CHUNKS, 2, "two"),
    (3 * EACH + CHUNKS, 3, "three"),
    (4 * EACH + CHUNKS, 4, "four"),
    (usize::MAX, 4, "at most four"),
];

// The peak size of the process's address space so far, in KiB.
fn peak_memory(rt: &HostRuntime) -> Result<usize, Fail> {
    let status = fs::read_to_string(rt, "/proc/self/status")?;
    let mut is_next = false;
    for word in status.split_whitespace() {
        if is_next {
            return Ok(word.parse()?);
        }
        is_next = is(word, "VmPeak:");
    }
    Err("the system does not say".into())
}

#[test]
fn tables(rt: HostRuntime) -> Result<(), Fail> {
    let (alloc, params) = (rt.alloc(), Params::new(15, 8, 4)?);
    let mut key = [0; 32];
    let (hasher, before) = (Scrypt::from(params), peak_memory(&rt)?);
    scrypt(alloc, b"", b"", &params, &mut key)?;
    let made: mcf::PasswordHash = hasher.hash_password_with_salt(alloc, b"", b"")?;
    holds(
        hasher.verify_password(alloc, b"", &made).is_ok(),
        "verified",
    )?;
    for &(max_mem, tables, reason) in &TABLES {
        let cores = &mut CoreCount::new();
        scrypt_with_max_mem::<Simd>(alloc, b"", b"", &params, max_mem, &mut key, cores)?;
        let taken = peak_memory(&rt)?.saturating_sub(before);
        holds(
            taken.saturating_add(TABLE / 2048) / (TABLE / 1024) == tables,
            reason,
        )?;
    }
    Ok(())
}

// Parameters, the lengths of a password, a salt and a key, and the reason for the row.
static LARGE: [((u8, u32, u32), [usize; 3], &str); 8] = [
    ((16, 8, 1), [0, 0, 32], "a table of 64 MiB"),
    ((1, 1, 1 << 18), [0, 0, 32], "2^18 chunks"),
    ((4, 1, 1), [10 << 20, 1, 32], "a password of 10 MiB"),
    ((4, 1, 1), [5000, 64, 64], "the longest salt of a PHC hash"),
    ((4, 1, 1), [0, 65, 65], "a salt and a key of a byte more"),
    ((4, 1, 1), [0, 10 << 20, 32], "a salt of 10 MiB"),
    ((4, 1, 1), [0, 0, 5000], "a key of 5,000 bytes"),
    ((4, 1, 1), [0, 0, 10 << 20], "a key of 10 MiB"),
];

// Whether hashes in both formats verify, a PHC hash if it can have this salt.
fn verifies(alloc: Global, params: Params, password: &[u8], salt: &[u8]) -> Result<bool, Fail> {
    let hasher = Scrypt::from(params);
    let made: mcf::PasswordHash = hasher.hash_password_with_salt(alloc, password, salt)?;
    let is_right = is_mcf_verdict(alloc, made.as_str(), password, Ok(()));
    if salt.is_empty() || salt.len() > 64 {
        return Ok(is_right);
    }
    let made: phc::PasswordHash = hasher.hash_password_with_salt(alloc, password, salt)?;
    let text = made.to_string(alloc)?;
    Ok(is_right && is_phc_verdict(alloc, text.as_str(), password, Ok(())))
}

#[test]
fn large_sizes(rt: HostRuntime) -> Result<(), Fail> {
    let alloc = rt.alloc();
    for &((log_n, r, p), [password, salt, key], reason) in &LARGE {
        let params = Params::new(log_n, r, p)?;
        let password = vec![in alloc; b'a'; password]?;
        let salt = vec![in alloc; b'b'; salt]?;
        let mut key = vec![in alloc; 0u8; key]?;
        Scrypt::from(params).derive_key(alloc, &password, &salt, &mut key)?;
        holds(verifies(alloc, params, &password, &salt)?, reason)?;
    }
    Ok(())
}
