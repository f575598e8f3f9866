// The laws, on keys and hashes with known values: each statement of a law is also computed.

use crate::hashes::EMPTY;
use crate::keys::FIRST;
use crate::{holds, is};
use password_hash::{PasswordHasher, PasswordVerifier, mcf};
use scrypt::laws::{
    made_hashes_are_accepted, shorter_key_is_prefix, zero_byte_and_digest_passwords_collide,
};
use scrypt::{Kdf, Params, Scrypt, scrypt};
use std::alloc::Global;
use std::test::Fail;

#[test]
fn beginnings_of_a_key(rt: HostRuntime) -> Result<(), Fail> {
    shorter_key_is_prefix();
    let (params, mut key, mut whole) = (Params::new(4, 1, 1)?, [0; 64], [0; 64]);
    for &len in &[1, 32, 33, 64] {
        scrypt(rt.alloc(), b"", b"", &params, &mut key[..len])?;
        holds(key[..len] == FIRST[..len], "its first bytes")?;
    }
    Scrypt::from(params).derive_key(rt.alloc(), b"", b"", &mut whole)?;
    holds(whole == FIRST, "the whole key, by the trait")
}

// SHA-256 of 65 letters `a`, by OpenSSL.
const DIGEST: [u8; 32] = [
    0x63, 0x53, 0x61, 0xc4, 0x8b, 0xb9, 0xea, 0xb1, 0x41, 0x98, 0xe7, 0x6e, 0xa8, 0xab, 0x7f, 0x1a,
    0x41, 0x68, 0x5d, 0x6a, 0xd6, 0x2a, 0xa9, 0x14, 0x6d, 0x30, 0x1d, 0x4f, 0x17, 0xeb, 0x0a, 0xe0,
];

// 63 letters, and a zero byte after them.
const WITH_ZERO: &[u8] = b"aaaaaaaaaaaaaaaaaaaaaaaaaaaaaaaaaaaaaaaaaaaaaaaaaaaaaaaaaaaaaaa\0";

// Two passwords, and the first 16 bytes of their key by Python's hashlib.
static SAME_KEYS: [(&[u8], &[u8], u128); 2] = [
    (&[b'a'; 63], WITH_ZERO, 0xe0b4589da9a4cf4e793e11875539462f),
    (&[b'a'; 65], &DIGEST, 0xb598f174427f4e2605a5a1db00567ede),
];

// A key at (4, 1, 1), without a salt.
fn key_of(alloc: Global, password: &[u8]) -> Result<[u8; 64], Fail> {
    let (params, mut key) = (Params::new(4, 1, 1)?, [0; 64]);
    scrypt(alloc, password, b"", &params, &mut key)?;
    Ok(key)
}

#[test]
fn passwords_with_one_key(rt: HostRuntime) -> Result<(), Fail> {
    zero_byte_and_digest_passwords_collide();
    for &(one, other, wanted) in &SAME_KEYS {
        let (key, same) = (key_of(rt.alloc(), one)?, key_of(rt.alloc(), other)?);
        let mut first = [0; 16];
        first.copy_from_slice(&key[..16]);
        let is_so = key == same && u128::from_be_bytes(first) == wanted;
        holds(is_so, "the same known key")?;
    }
    Ok(())
}

#[test]
fn a_made_hash_is_accepted(rt: HostRuntime) -> Result<(), Fail> {
    made_hashes_are_accepted();
    let hasher = Scrypt::from(Params::new(4, 1, 1)?);
    let made: mcf::PasswordHash = hasher.hash_password_with_salt(rt.alloc(), b"", b"")?;
    holds(is(made.as_str(), EMPTY), "the known hash")?;
    holds(
        hasher.verify_password(rt.alloc(), b"", &made).is_ok(),
        "of its password",
    )
}
