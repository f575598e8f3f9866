// Each allocation of a derivation is made to fail, one per run, and the exact number of them is
// asserted.

use crate::failing_allocations::{CallEnd, ended, failing_allocations};
use crate::holds;
use scrypt::DeriveError::{self, InvalidOutputLen, OutOfMemory};
use scrypt::{
    BufferLens, Buffers, CoreCount, Kdf, Params, Scrypt, Simd, kdf, scrypt, scrypt_counted,
    scrypt_with_max_mem,
};
use std::alloc::Global;
use std::test::Fail;

// The calls that derive a key in memory that they allocate, one of them within a size for this
// number of tables; and the call that only allocates.
#[derive(Clone, Copy)]
enum Call {
    Scrypt,
    ScryptCounted,
    DeriveKey,
    InGroups(usize),
    Allocate,
}

// The chunks, the table and the scratch at (4, 1, 1), and with one table at (4, 1, 4).
pub const OF_ONE: [usize; 3] = [128, 2048, 256];

pub const OF_FOUR: [usize; 3] = [512, 2048, 256];

// A call, p, the sizes of its allocations at (4, 1, p), how many of them it needs, and the reason
// for the row. A call for several tables that cannot allocate their scratches falls back to one
// table, which fits with its scratch where the several tables were. `memory.rt` tests how many
// tables a call allocates.
static CALLS: [(Call, u32, [usize; 3], usize, &str); 11] = [
    (Call::Scrypt, 1, OF_ONE, 3, "the three buffers"),
    (Call::ScryptCounted, 1, OF_ONE, 3, "none for counting"),
    (Call::DeriveKey, 1, OF_ONE, 3, "none for the trait"),
    (Call::Allocate, 1, OF_ONE, 3, "`Buffers`"),
    (Call::Scrypt, 4, OF_FOUR, 3, "one table for four chunks"),
    (Call::DeriveKey, 4, OF_FOUR, 3, "the same by the trait"),
    (Call::InGroups(1), 4, OF_FOUR, 3, "bytes for one table"),
    (Call::InGroups(4), 4, OF_FOUR, 3, "one table if four fail"),
    (Call::InGroups(2), 4, [512, 4096, 512], 2, "two, no scratch"),
    (Call::InGroups(3), 4, [512, 6144, 768], 2, "three"),
    (Call::InGroups(4), 4, [512, 8192, 1024], 2, "four"),
];

// The initial contents of an output.
const BEFORE: [u8; 32] = [0xaa; 32];

// The end of this call. If it runs out of memory, its output is unchanged.
fn end_of(call: Call, alloc: Global, params: &Params) -> CallEnd {
    let (mut out, mut cores) = (BEFORE, CoreCount::new());
    let end = match call {
        Call::Scrypt => ended(&scrypt(alloc, b"", b"", params, &mut out), OutOfMemory),
        Call::ScryptCounted => {
            let derived = scrypt_counted(alloc, b"", b"", params, &mut out, &mut cores);
            ended(&derived, OutOfMemory)
        }
        Call::DeriveKey => {
            let derived = Scrypt::from(*params).derive_key(alloc, b"", b"", &mut out);
            ended(&derived, kdf::Error::OutOfMemory)
        }
        Call::InGroups(tables) => {
            let max_mem = tables.min(4) * (2048 + 256) + 512;
            let derived = scrypt_with_max_mem::<Simd>(
                alloc, b"", b"", params, max_mem, &mut out, &mut cores,
            );
            ended(&derived, OutOfMemory)
        }
        Call::Allocate => match Buffers::allocate(alloc, &BufferLens::of(params)) {
            Ok(_) => CallEnd::Done,
            Err(_) => CallEnd::OutOfMemory,
        },
    };
    match end {
        CallEnd::OutOfMemory if out != BEFORE => CallEnd::Otherwise,
        _ => end,
    }
}

#[test]
fn derivations(rt: HostRuntime) -> Result<(), Fail> {
    for &(call, p, sizes, needed, reason) in &CALLS {
        let params = Params::new(4, 1, p)?;
        let allocations = failing_allocations(rt.alloc(), &sizes, || {
            end_of(call, rt.alloc(), &params)
        })?;
        holds(allocations == needed, reason)?;
    }
    Ok(())
}

// A length of a key, log_n, how its derivation ends, and the reason for the row.
static REFUSED: [(usize, u8, DeriveError, &str); 3] = [
    (0, 4, InvalidOutputLen, "no byte"),
    (0, 56, InvalidOutputLen, "no byte, before memory"),
    (32, 56, OutOfMemory, "a table of 2^63 bytes"),
];

#[test]
fn refused_derivations(rt: HostRuntime) -> Result<(), Fail> {
    for &(len, log_n, error, reason) in &REFUSED {
        let (params, mut output) = (Params::new(log_n, 1, 1)?, BEFORE);
        let refused = scrypt(rt.alloc(), b"", b"", &params, &mut output[..len]);
        holds(refused == Err(error) && output == BEFORE, reason)?;
    }
    Ok(())
}
