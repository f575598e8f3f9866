// Derivations in the caller's buffers, whose initial contents do not matter.

use crate::hashes::EMPTY;
use crate::holds;
use crate::keys::{FIRST, SECOND};
use scrypt::LimitedError::{self, BufferTooShort};
use scrypt::{
    BufferLens, Buffers, CoreCount, InvalidOutputLen, Params, StepsError, StoredHash, scrypt_thin,
    scrypt_with_buffers,
};
use std::alloc::Global;
use std::test::Fail;

#[test]
fn keys_in_used_buffers() -> Result<(), Fail> {
    let (params, cores) = (Params::new(4, 1, 1)?, &mut CoreCount::new());
    let (mut b, mut v, mut t) = ([0xff; 128], [u32::MAX; 512], [u32::MAX; 64]);
    for _ in 0..2 {
        let mut key = [0; 64];
        scrypt_with_buffers(b"", b"", &params, &mut b, &mut v, &mut t, &mut key, cores)?;
        holds(key == FIRST, "both times")?;
    }
    Ok(())
}

// The lengths of the chunks in bytes, and of the table and the scratch in words, and the verdict in
// them on a hash with the parameters (4, 1, 1).
static VERDICTS: [(usize, usize, usize, Result<(), LimitedError>, &str); 4] = [
    (128, 512, 64, Ok(()), "each as long as it has to be"),
    (127, 512, 64, Err(BufferTooShort), "the chunks"),
    (128, 511, 64, Err(BufferTooShort), "the table"),
    (128, 512, 63, Err(BufferTooShort), "the scratch"),
];

#[test]
fn a_hash_in_short_buffers(rt: HostRuntime) -> Result<(), Fail> {
    let (hash, cores) = (StoredHash::read(EMPTY)?, &mut CoreCount::new());
    for &(chunks, table, scratch, wanted, reason) in &VERDICTS {
        let lens = BufferLens {
            chunks,
            table,
            scratch,
        };
        let mut own = Buffers::allocate(rt.alloc(), &lens)?;
        holds(own.verify(&hash, b"", cores) == wanted, reason)?;
    }
    Ok(())
}

// The end of a derivation by (4, 1, 1) in steps of five block mixes, until `until` cores are done.
// Each step takes ten cores, of 64 in all.
#[derive(Drop)]
struct End {
    result: Result<(), StepsError>,
    // The numbers that `go_on` got, in two digits each.
    seen: u128,
    // Whether the last row of the table was written, so that half of the work was done.
    is_half: bool,
}

fn in_steps(alloc: Global, until: u128, key: &mut [u8; 64]) -> Result<End, Fail> {
    let params = Params::new(4, 1, 1)?;
    let mut own = Buffers::allocate(alloc, &BufferLens::of(&params))?;
    let mut seen = 0u128;
    let go_on = |done: u128| {
        seen = seen.wrapping_mul(100).wrapping_add(done);
        done < until
    };
    let result = own.derive_key_in_steps(b"", b"", &params, 5, go_on, key);
    let is_half = own.table.last() != Some(&0);
    Ok(End {
        result,
        seen,
        is_half,
    })
}

#[test]
fn keys_in_steps(rt: HostRuntime) -> Result<(), Fail> {
    let mut key = [0; 64];
    let whole = in_steps(rt.alloc(), 65, &mut key)?;
    holds(whole.result.is_ok() && key == FIRST, "the whole key")?;
    let is_so = whole.seen == 10_20_30_40_50_60_64;
    holds(is_so, "after each of seven steps")?;
    let cancelled = in_steps(rt.alloc(), 20, &mut key)?;
    let is_so = cancelled.result == Err(StepsError::Cancelled) && key == FIRST;
    holds(is_so, "cancelled, with the output unchanged")?;
    let is_so = cancelled.seen == 10_20 && !cancelled.is_half;
    holds(is_so, "at once, after the second step")
}

// The key by a table that keeps one row in 2^s, in buffers with other contents.
fn by_thin_table(
    alloc: Global,
    password: &[u8],
    salt: &[u8],
    params: &Params,
    s: u8,
) -> Result<[u8; 64], Fail> {
    let Some(lens) = BufferLens::thin(params, s) else {
        return Err("s is above log_n".into());
    };
    let (mut own, mut key) = (Buffers::allocate(alloc, &lens)?, [0; 64]);
    let (b, v, t) = (&mut own.chunks, &mut own.table, &mut own.scratch);
    b.fill(0xff);
    v.fill(u32::MAX);
    t.fill(u32::MAX);
    let cores = &mut CoreCount::new();
    scrypt_thin(password, salt, params, s, b, v, t, &mut key, cores)?;
    Ok(key)
}

#[test]
fn keys_by_thin_tables(rt: HostRuntime) -> Result<(), Fail> {
    let params = Params::new(4, 1, 1)?;
    for s in 0..=4 {
        let key = by_thin_table(rt.alloc(), b"", b"", &params, s)?;
        holds(key == FIRST, "from the whole table to one row")?;
    }
    let params = Params::new(10, 8, 16)?;
    let key = by_thin_table(rt.alloc(), b"password", b"NaCl", &params, 3)?;
    holds(key == SECOND, "one row in eight, for 16 chunks")
}

#[test]
fn an_empty_key_by_a_thin_table() -> Result<(), Fail> {
    let (params, cores) = (Params::new(4, 1, 1)?, &mut CoreCount::new());
    let lens = BufferLens {
        chunks: 128,
        table: 32,
        scratch: 96,
    };
    holds(BufferLens::thin(&params, 4) == Some(lens), "one row")?;
    holds(BufferLens::thin(&params, 5).is_none(), "s is above log_n")?;
    let (mut b, mut v, mut t) = ([0xff; 128], [7; 32], [7; 96]);
    let refused = scrypt_thin(b"", b"", &params, 4, &mut b, &mut v, &mut t, &mut [], cores);
    holds(refused == Err(InvalidOutputLen), "which is refused")?;
    let is_same = b == [0xff; 128] && v == [7; 32] && t == [7; 96];
    holds(is_same, "and changes no buffer")
}
