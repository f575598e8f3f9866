// Lengths of keys, and the cost of parameters, at their limits. `tools/tests/program.py` has the
// smallest parameters, and parameters that are rejected.

use crate::holds;
use scrypt::{BufferLens, Params, output_len_ok};
use std::test::Fail;

#[test]
fn the_greatest() -> Result<(), Fail> {
    holds(Params::new(0, 1, 0x3fff_ffff).is_ok(), "r * p")?;
    holds(Params::new(1, 0x3fff_ffff, 1).is_ok(), "r")?;
    holds(Params::new(27, 0x3fff_ffff, 1).is_ok(), "N * r")
}

// A key's length, whether one can be derived, whether it can be that of a hash, and the reason.
static LENS: [(usize, bool, bool, &str); 10] = [
    (0, false, false, "no byte"),
    (1, true, false, "the least"),
    (9, true, false, "too short for a hash"),
    (10, true, true, "the least of a hash"),
    (32, true, true, "not the same as no length"),
    (64, true, true, "the greatest of a hash"),
    (65, true, false, "too long for a hash"),
    (137_438_953_440, true, false, "the greatest"),
    (137_438_953_441, false, false, "a byte more"),
    (137_438_953_471, false, false, "whole blocks of PBKDF2"),
];

#[test]
fn lengths_of_keys() -> Result<(), Fail> {
    let without = Params::new(17, 8, 1)?;
    for &(len, is_derived, is_of_hash, reason) in &LENS {
        holds(output_len_ok(len) == is_derived, reason)?;
        let params = Params::new_with_output_len(17, 8, 1, len);
        let is_so = params.is_ok() == is_of_hash && params != Ok(without);
        holds(is_so, reason)?;
    }
    Ok(())
}

// log_n, r and p, the lengths of the chunks, the table and the scratch, and the cores of a
// derivation.
static NEEDS: [((u8, u32, u32), [usize; 3], u128); 6] = [
    ((0, 1, 1), [128, 32, 64], 4),
    ((4, 1, 1), [128, 512, 64], 64),
    ((10, 8, 16), [16_384, 262_144, 512], 524_288),
    ((14, 8, 1), [1024, 4_194_304, 512], 524_288),
    ((17, 8, 1), [1024, 33_554_432, 512], 4_194_304),
    ((56, 1, 1), [128, 1 << 61, 64], 1 << 58),
];

#[test]
fn needs_of_parameters() -> Result<(), Fail> {
    for &((log_n, r, p), [chunks, table, scratch], cores) in &NEEDS {
        let params = Params::new(log_n, r, p)?;
        let lens = BufferLens {
            chunks,
            table,
            scratch,
        };
        holds(BufferLens::of(&params) == lens, "the three buffers")?;
        holds(params.cores() == cores, "the cores")?;
    }
    Ok(())
}
