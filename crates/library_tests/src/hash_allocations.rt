// Each allocation of a call is made to fail, one per run, and the exact number of them is asserted.

use crate::derivation_allocations::{OF_FOUR, OF_ONE};
use crate::failing_allocations::{CallEnd, check, done_if, ended, failing_allocations};
use crate::{holds, is};
use password_hash::mcf::{self, Base64};
use password_hash::{Error, PasswordHasher, PasswordVerifier, phc};
use scrypt::{Params, Scrypt, hash_text};
use std::alloc::Global;
use std::test::Fail;

// The calls that derive a key.
#[derive(Clone, Copy)]
enum Deriving {
    HashPhc,
    HashMcf,
    VerifyPhc,
    VerifyMcf,
    HashText,
}

// More than the 72 bytes that some hashes stop at.
const LONG: [u8; 73] = [b'x'; 73];

// A call that derives a key, p, the key's length, the sizes of its allocations at (4, 1, p), and
// the reason for the row. The last three are the chunks, the table and the scratch.
static DERIVING: [(Deriving, u32, usize, &[usize], &str); 10] = [
    (Deriving::HashPhc, 1, 32, &OF_ONE, "its key is in place"),
    (Deriving::HashPhc, 4, 32, &OF_FOUR, "one table"),
    (Deriving::VerifyPhc, 1, 32, &OF_ONE, "it is read in place"),
    (Deriving::VerifyPhc, 4, 32, &OF_FOUR, "one table"),
    (Deriving::HashMcf, 1, 32, &[58, 128, 2048, 256], "a text"),
    (Deriving::HashMcf, 1, 64, &[101, 128, 2048, 256], "longer"),
    (Deriving::HashMcf, 4, 32, &[58, 512, 2048, 256], "one table"),
    (Deriving::VerifyMcf, 1, 32, &OF_ONE, "its letters are read"),
    (Deriving::VerifyMcf, 4, 32, &OF_FOUR, "one table"),
    (Deriving::HashText, 1, 32, &OF_ONE, "none for the text"),
];

// The end of this call with the empty password, or with a long one.
fn end_of_deriving(
    call: &Deriving,
    alloc: Global,
    hasher: &Scrypt,
    phc_hash: &phc::PasswordHash,
    mcf_hash: &mcf::PasswordHash,
) -> CallEnd {
    let memory = Error::OutOfMemory;
    match call {
        Deriving::HashPhc => {
            let made: Result<phc::PasswordHash, Error> = hasher.hash_password_with_salt(
                alloc, b"", b"salt",
            );
            ended(&made, memory)
        }
        Deriving::HashMcf => {
            let made: Result<mcf::PasswordHash, Error> = hasher.hash_password_with_salt(
                alloc, b"", b"",
            );
            ended(&made, memory)
        }
        Deriving::VerifyPhc => ended(&hasher.verify_password(alloc, b"", phc_hash), memory),
        Deriving::HashText => {
            let made = hash_text(alloc, &LONG, [7; 16], &hasher.params());
            ended(&made, memory)
        }
        // The owned text is verified as the borrowed one, so this tries both.
        Deriving::VerifyMcf => ended(&hasher.verify_password(alloc, b"", mcf_hash), memory),
    }
}

#[test]
fn hashing_and_verifying(rt: HostRuntime) -> Result<(), Fail> {
    let alloc = rt.alloc();
    for &(call, p, len, sizes, reason) in &DERIVING {
        let hasher = Scrypt::from(Params::new_with_output_len(4, 1, p, len)?);
        let phc_hash: phc::PasswordHash = hasher.hash_password_with_salt(alloc, b"", b"salt")?;
        let mcf_hash: mcf::PasswordHash = hasher.hash_password_with_salt(alloc, b"", b"")?;
        let allocations = failing_allocations(alloc, sizes, || {
            end_of_deriving(&call, alloc, &hasher, &phc_hash, &mcf_hash)
        })?;
        holds(allocations == sizes.len(), reason)?;
    }
    Ok(())
}

// Blocks of this size and more are kept where also a growing text can have them.
const LETTERS: usize = 2000;

const BYTES: usize = 1500;

const GROWN: usize = 2 * LETTERS + 1;

// A text with `count` copies of a letter after it.
pub fn followed(alloc: Global, text: &str, letter: &str, count: usize) -> Result<String, Fail> {
    let mut text = String::from_str(alloc, text)?;
    text.push_str(letter.repeat(alloc, count)?.as_str())?;
    Ok(text)
}

// Makes a text and pushes this field, or these bytes if it is empty. A push that fails leaves the
// text unchanged.
fn end_of_push(alloc: Global, text: &str, field: &str, bytes: &[u8]) -> CallEnd {
    let Ok(mut hash) = mcf::PasswordHash::from_id(alloc, text.get(1..).unwrap_or("")) else {
        return CallEnd::OutOfMemory;
    };
    let pushed = if field.is_empty() {
        hash.push_base64(alloc, bytes, Base64::Crypt)
    } else {
        hash.push_str(field)
    };
    if pushed.is_err() && !is(hash.as_str(), text) {
        return CallEnd::Otherwise;
    }
    ended(&pushed, mcf::Error::OutOfMemory)
}

// The text is `$` and letters, 2000 characters in all; the bytes are encoded in the same number of
// letters of crypt Base64, which are the field. The letters of bytes are made before the text
// grows.
#[test]
fn texts_letters_and_bytes(rt: HostRuntime) -> Result<(), Fail> {
    let (alloc, memory, crypt) = (rt.alloc(), mcf::Error::OutOfMemory, Base64::Crypt);
    let text = followed(alloc, "$", "a", LETTERS - 1)?;
    let bytes = vec![in alloc; 0xffu8; BYTES]?;
    let letters = followed(alloc, "$7$", "z", LETTERS)?;
    let hash = mcf::PasswordHashRef::new(letters.as_str())?;
    let field = hash.fields().next().ok_or("no field")?;
    check(alloc, &[LETTERS], || {
        ended(&mcf::PasswordHash::new(alloc, text.as_str()), memory)
    })?;
    check(alloc, &[LETTERS], || {
        let id = text.get(1..).unwrap_or("");
        ended(&mcf::PasswordHash::from_id(alloc, id), memory)
    })?;
    check(alloc, &[LETTERS], || {
        ended(&crypt.encode_string(alloc, &bytes), memory)
    })?;
    check(alloc, &[BYTES], || {
        ended(&crypt.decode_vec(alloc, field.as_str()), memory)
    })?;
    check(alloc, &[BYTES], || {
        ended(&field.decode_base64(alloc, crypt), memory)
    })?;
    check(alloc, &[LETTERS, GROWN], || {
        end_of_push(alloc, text.as_str(), field.as_str(), &bytes)
    })?;
    check(alloc, &[LETTERS, LETTERS, GROWN], || {
        end_of_push(alloc, text.as_str(), "", &bytes)
    })
}

// Nothing is allocated but the id of the text that a field is pushed to.
#[test]
fn refusals_without_allocating(rt: HostRuntime) -> Result<(), Fail> {
    let (alloc, crypt) = (rt.alloc(), Base64::Crypt);
    let refused = Some(mcf::Error::EncodingInvalid);
    let id = "a".repeat(alloc, LETTERS - 1)?;
    let hash = mcf::PasswordHashRef::new("$7$z")?;
    let field = hash.fields().next().ok_or("no field")?;
    check(alloc, &[LETTERS], || {
        let Ok(mut hash) = mcf::PasswordHash::from_id(alloc, id.as_str()) else {
            return CallEnd::OutOfMemory;
        };
        done_if(
            hash.push_str("a$b").err() == refused
                && mcf::PasswordHash::new(alloc, "7$a").err() == refused
                && mcf::PasswordHash::from_id(alloc, "7$a").err() == refused
                && crypt.decode_vec(alloc, field.as_str()).err() == refused
                && field.decode_base64(alloc, crypt).err() == refused,
        )
    })
}
