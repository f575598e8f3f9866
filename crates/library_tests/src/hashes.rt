// Hashes with known values, the calls that make them, and the texts of errors, which no clause
// states. `tools/tests/program.py` asks the built program which texts are made, verified and
// rejected.

use crate::verdicts::is_mcf_verdict;
use crate::{holds, is};
use password_hash::mcf::Base64;
use password_hash::{
    CustomizedPasswordHasher, Error, PasswordHasher, PasswordVerifier, kdf, mcf, phc,
};
use scrypt::{InvalidParams, LimitedError, Params, Scrypt};
use std::alloc::{AllocError, Global};
use std::test::Fail;

// passlib's, of `password`.
pub const PHC: &str =
    "$scrypt$ln=16,r=8,p=1$aM15713r3Xsvxbi31lqr1Q$nFNh2CVHVjNldFVKDHDlm4CbdRSCdEBsjjJxD+iCs5E";

// libxcrypt's, of `pleaseletmein`, and the shortest key of it.
pub const MCF: &str =
    "$7$CU..../....Mq4YHD2syxYT.MsH1Ek0n1$JyHIxez0DOwm0r6.kAIohc8UFBOLU4xX8a1wGBpLrw7";

const MCF_OF_10: &str = "$7$CU..../....Mq4YHD2syxYT.MsH1Ek0n1$JyHIxez0DOwm01";

// The first key of RFC 7914, section 12, without password and salt, in 32 and in 64 bytes.
pub const EMPTY: &str = "$7$2/..../....$rNxJWVHNv/mCNcgE/f6/L4zO6Fos5c2uTzhyzoisI62";

const EMPTY_OF_64: &str =
    "$7$2/..../....$rNxJWVHNv/mCNcgE/f6/L4zO6Fos5c2uTzhyzoisI62zEPEbhb.Gs9XOpdn16zl3cDBsvvG1qUmnp6C1s2RW4.";

const SALT: &str = "Mq4YHD2syxYT.MsH1Ek0n1";

pub const LETMEIN: &str = "pleaseletmein";

// The letters of a salt, a password, log_n, r and p, a key's length or 0 for none, and the hash.
static MCF_HASHES: [(&str, &str, (u8, u32, u32), usize, &str); 5] = [
    (SALT, LETMEIN, (14, 32, 1), 0, MCF),
    (SALT, LETMEIN, (14, 32, 1), 10, MCF_OF_10),
    ("", "", (4, 1, 1), 0, EMPTY),
    ("", "", (4, 1, 1), 10, "$7$2/..../....$rNxJWVHNv/mCN."),
    ("", "", (4, 1, 1), 64, EMPTY_OF_64),
];

// Parameters with this key length, or without one if it is 0.
pub fn params_of((log_n, r, p): (u8, u32, u32), len: usize) -> Result<Params, InvalidParams> {
    if len == 0 {
        return Params::new(log_n, r, p);
    }
    Params::new_with_output_len(log_n, r, p, len)
}

#[test]
fn known_mcf_hashes(rt: HostRuntime) -> Result<(), Fail> {
    for &(letters, password, costs, len, wanted) in &MCF_HASHES {
        let salt = Base64::Crypt.decode_vec(rt.alloc(), letters)?;
        let (password, params) = (password.as_bytes(), params_of(costs, len)?);
        let made: mcf::PasswordHash = Scrypt::new().hash_password_with_params(
            rt.alloc(),
            password,
            &salt,
            params,
        )?;
        let is_verified = is_mcf_verdict(rt.alloc(), wanted, password, Ok(()));
        holds(is(made.as_str(), wanted) && is_verified, wanted)?;
    }
    Ok(())
}

// The third key of RFC 7914, section 12, and 10 bytes of it.
const THIRD: &str =
    "$scrypt$ln=14,r=8,p=1$U29kaXVtQ2hsb3JpZGU$cCO9yzr9c0hGHAbNgf046/2o+7qQT44+qbVD9lRdofI";

pub const THIRD_OF_10: &str = "$scrypt$ln=14,r=8,p=1$U29kaXVtQ2hsb3JpZGU$cCO9yzr9c0hGHA";

// A salt, a key's length or 0 for none, the hash of `pleaseletmein` or the error, and the reason.
static PHC_HASHES: [(&[u8], usize, &str, &str); 4] = [
    (b"SodiumChloride", 0, THIRD, "without a length"),
    (b"SodiumChloride", 10, THIRD_OF_10, "of 10 bytes"),
    (b"", 0, "invalid salt length", "no salt"),
    (&[b'a'; 65], 0, "invalid salt length", "65 bytes"),
];

#[test]
fn known_phc_hashes(rt: HostRuntime) -> Result<(), Fail> {
    for &(salt, len, wanted, reason) in &PHC_HASHES {
        let (password, params) = (LETMEIN.as_bytes(), params_of((14, 8, 1), len)?);
        let made: Result<phc::PasswordHash, Error> = Scrypt::new().hash_password_with_params(
            rt.alloc(),
            password,
            salt,
            params,
        );
        let is_wanted = match made {
            Ok(hash) => is(hash.to_array_string().as_str(), wanted),
            Err(error) => is(error.to_string(rt.alloc())?.as_str(), wanted),
        };
        holds(is_wanted, reason)?;
    }
    Ok(())
}

// A caller's own error type, converted from each error of its calls.
#[derive(Drop)]
enum Failure {
    Hash(Error),
    Memory,
}

impl From<Error> for Failure {
    fn from(error: Error) -> Failure {
        Failure::Hash(error)
    }
}

impl From<AllocError> for Failure {
    fn from(_error: AllocError) -> Failure {
        Failure::Memory
    }
}

// Makes a hash by default, prints it, and reads and verifies the text.
fn printed_and_read(alloc: Global, password: &[u8]) -> Result<(), Failure> {
    let hasher = Scrypt::default();
    let made: phc::PasswordHash = hasher.hash_password(alloc, password, *b"0123456789abcdef")?;
    let text = made.to_string(alloc)?;
    let read = phc::PasswordHash::new(text.as_str())?;
    match hasher.verify_password(alloc, password, &read) {
        Ok(()) => Ok(()),
        Err(refused) => Err(Failure::from(refused)),
    }
}

#[test]
fn a_hash_by_default(rt: HostRuntime) -> Result<(), Fail> {
    match printed_and_read(rt.alloc(), b"hunter42") {
        Ok(()) => Ok(()),
        Err(Failure::Hash(error)) => Err(error.into()),
        Err(Failure::Memory) => Err("out of memory".into()),
    }
}

static TEXTS: [(Error, &str); 9] = [
    (Error::Algorithm, "unsupported algorithm"),
    (Error::EncodingInvalid, "invalid encoding"),
    (Error::OutputSize, "invalid key length"),
    (Error::ParamInvalid { name: "ln" }, "invalid parameter ln"),
    (Error::ParamsInvalid, "invalid parameters"),
    (Error::PasswordInvalid, "wrong password"),
    (Error::SaltInvalid, "invalid salt length"),
    (Error::Version, "unsupported version"),
    (Error::OutOfMemory, "out of memory"),
];

#[test]
fn texts_of_errors(rt: HostRuntime) -> Result<(), Fail> {
    for &(error, text) in &TEXTS {
        holds(is(error.to_string(rt.alloc())?.as_str(), text), text)?;
        let within = LimitedError::Hash(error).to_string(rt.alloc())?;
        holds(is(within.as_str(), text), "also of a call with limits")?;
    }
    let short = LimitedError::BufferTooShort.to_string(rt.alloc())?;
    holds(is(short.as_str(), "a buffer is too short"), "in buffers")?;
    let refused = kdf::Error::Refused.to_string(rt.alloc())?;
    holds(is(refused.as_str(), "refused key length"), "of a key")
}
