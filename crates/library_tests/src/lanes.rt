// The core and the block mix in diagonal order, compared with those in standard order and with known
// values.

use crate::holds;
use scrypt::block_mix::lanes::{self, shuffle_in, shuffle_out};
use scrypt::block_mix::plain;
use scrypt::pbkdf2::pbkdf2_one;
use scrypt::romix::{integerify_diagonal, integerify_plain};
use scrypt::{CoreCount, salsa};
use std::test::Fail;

// RFC 7914, section 8.
const CORE_INPUT: [u32; 16] = [
    0x219a877e, 0x86c93e4f, 0xe640a97c, 0x268f7141, 0x5b55eeba, 0xb5c1618c, 0x1146f80d, 0x1d3bcd6d,
    0x19f324ee, 0x853d9bdf, 0x4b1e1214, 0x32aac55a, 0x291d0276, 0x2948c709, 0x8dc6ebed, 0x5ec2b8b8,
];

const CORE_OUTPUT: [u32; 16] = [
    0x9c851fa4, 0x99cc0866, 0xcbca813b, 0x05ef0c02, 0x81214b04, 0x7d33fda2, 0x631c7bfd, 0x292f6896,
    0x683139b4, 0xbce6c9e3, 0xb7c56bfe, 0xba966da0, 0x10cc24e4, 0x5c74912c, 0x3d67ad24, 0x818f61c7,
];

const PLACES: [u32; 16] = [0, 1, 2, 3, 4, 5, 6, 7, 8, 9, 10, 11, 12, 13, 14, 15];

const IN_DIAGONAL_ORDER: [u32; 16] = [0, 5, 10, 15, 4, 9, 14, 3, 8, 13, 2, 7, 12, 1, 6, 11];

const IN_STANDARD_ORDER: [u32; 16] = [0, 13, 10, 7, 4, 1, 14, 11, 8, 5, 2, 15, 12, 9, 6, 3];

#[test]
fn orders_of_the_places() -> Result<(), Fail> {
    let (mut diagonal, mut standard) = (PLACES, PLACES);
    shuffle_in(&mut diagonal);
    shuffle_out(&mut standard);
    holds(diagonal == IN_DIAGONAL_ORDER, "into diagonal order")?;
    holds(standard == IN_STANDARD_ORDER, "and out of it")
}

#[test]
fn cores() -> Result<(), Fail> {
    for &(input, wanted, reason) in &[
        (CORE_INPUT, CORE_OUTPUT, "the vector of RFC 7914"),
        ([0; 16], [0; 16], "zeros stay zeros"),
    ] {
        let (mut by_words, mut by_lanes, mut cores) = (input, input, CoreCount::new());
        salsa::core(&mut by_words, &mut cores);
        holds(by_words == wanted, reason)?;
        shuffle_in(&mut by_lanes);
        lanes::core(&mut by_lanes, &mut cores);
        shuffle_out(&mut by_lanes);
        holds(by_lanes == wanted, reason)?;
    }
    Ok(())
}

// The block mix in standard order of the first 2 * r blocks, with r from 1 to 5.
fn mixed_by_words(words: &[u32; 160], r: usize) -> [u32; 160] {
    let (len, mut output) = (32 * r.clamp(1, 5), [0; 160]);
    plain::scrypt_block_mix(&words[..len], &mut output[..len], &mut CoreCount::new());
    output
}

// The block mix of these words in diagonal order, and its input afterwards, both converted to the
// standard order.
fn mixed_by_lanes(words: &[u32; 160], r: usize) -> ([u32; 160], [u32; 160]) {
    let (len, mut input, mut output) = (32 * r.clamp(1, 5), *words, [0; 160]);
    shuffle_in(&mut input);
    lanes::scrypt_block_mix(&input[..len], &mut output[..len], &mut CoreCount::new());
    shuffle_out(&mut input);
    shuffle_out(&mut output);
    (output, input)
}

// The block mix in standard order. That in diagonal order must return the same, and leave its input
// unchanged.
fn mixed(words: &[u32; 160], r: usize) -> Result<[u32; 160], Fail> {
    let (wanted, (output, input)) = (mixed_by_words(words, r), mixed_by_lanes(words, r));
    holds(output == wanted, "the block mix in diagonal order")?;
    holds(mixed_by_words(&input, r) == wanted, "its input afterwards")?;
    Ok(wanted)
}

#[test]
fn block_mixes() -> Result<(), Fail> {
    let mut words = [0; 160];
    words[..16].copy_from_slice(&CORE_INPUT);
    // The second block is zeros, so the input of the first core is the first block.
    let output = mixed(&words, 1)?;
    holds(output[..16] == CORE_OUTPUT[..], "begins with the core")?;
    for i in 0..160 {
        words[i] = i as u32;
    }
    for r in 1..6 {
        mixed(&words, r)?;
    }
    Ok(())
}

// Each byte becomes its sum with the byte of the block mix.
#[test]
fn ten_block_mixes_of_sums() -> Result<(), Fail> {
    let mut words = [0; 160];
    for i in 0..32 {
        words[i] = 0x0302_0100 + 0x0404_0404 * i as u32;
    }
    for _ in 0..10 {
        let output = mixed(&words, 1)?;
        for i in 0..32 {
            let (mut bytes, others) = (words[i].to_le_bytes(), output[i].to_le_bytes());
            for k in 0..4 {
                bytes[k] = bytes[k].wrapping_add(others[k]);
            }
            words[i] = u32::from_le_bytes(bytes);
        }
    }
    Ok(())
}

// log_n, the low log_n bits of a last block that begins with 5 and 3, and the reason for the row.
static INDICES: [(u8, usize, &str); 4] = [
    (0, 0, "no bit"),
    (4, 5, "bits of the first word"),
    (33, 4_294_967_301, "a bit of the second word"),
    (56, 12_884_901_893, "the greatest log_n"),
];

#[test]
fn indices_of_the_walk() -> Result<(), Fail> {
    let (mut standard, mut diagonal) = ([7; 32], [7; 32]);
    (standard[16], standard[17]) = (5, 3);
    (diagonal[16], diagonal[29]) = (5, 3);
    for &(log_n, index, reason) in &INDICES {
        holds(integerify_plain(&standard, log_n) == index, reason)?;
        holds(integerify_diagonal(&diagonal, log_n) == index, reason)?;
    }
    Ok(())
}

// RFC 7914, section 11.
const PBKDF2: [u8; 64] = [
    0x55, 0xac, 0x04, 0x6e, 0x56, 0xe3, 0x08, 0x9f, 0xec, 0x16, 0x91, 0xc2, 0x25, 0x44, 0xb6, 0x05,
    0xf9, 0x41, 0x85, 0x21, 0x6d, 0xde, 0x04, 0x65, 0xe6, 0x8b, 0x9d, 0x57, 0xc2, 0x0d, 0xac, 0xbc,
    0x49, 0xca, 0x9c, 0xcc, 0xf1, 0x79, 0xb6, 0x45, 0x99, 0x16, 0x64, 0xb3, 0x9d, 0x77, 0xef, 0x31,
    0x7c, 0x71, 0xb8, 0x45, 0xb1, 0xe3, 0x0b, 0xd5, 0x09, 0x11, 0x20, 0x41, 0xd3, 0xa1, 0x97, 0x83,
];

#[test]
fn keys_of_one_iteration() -> Result<(), Fail> {
    let (mut key, mut none) = ([0; 64], [0; 0]);
    pbkdf2_one(b"passwd", b"salt", &mut key);
    pbkdf2_one(b"passwd", b"salt", &mut none);
    holds(key == PBKDF2, "64 bytes, and none")
}
