// Hostile texts: every call that reads them returns the same verdict. `tools/tests/hostile.py` has
// more.

use crate::hash_allocations::followed;
use crate::hashes::{EMPTY, PHC};
use crate::holds;
use crate::verdicts::{Verdict, is_mcf_verdict, is_phc_verdict};
use password_hash::mcf::alphabet::value;
use password_hash::{Error, mcf};
use scrypt::laws::texts_have_one_reading;
use std::alloc::Global;
use std::str;
use std::test::Fail;

// The position of the key.
const KEY_AT: usize = 15;

// The verdict by the prefix of this length of a `$7$` hash. One that ends in the key is the hash of
// a shorter key.
fn wanted_of_beginning(len: usize) -> Verdict {
    match len {
        KEY_AT => Err(Error::OutputSize),
        19 | 23 | 25 | 27 | 31 | 34 | 35 | 39 | 43 | 46 | 47 | 51 | 55 | 58 => Ok(()),
        _ => Err(Error::EncodingInvalid),
    }
}

#[test]
fn beginnings(rt: HostRuntime) -> Result<(), Fail> {
    texts_have_one_reading();
    for len in 0..=58 {
        let beginning = EMPTY.get(..len).unwrap_or("");
        let is_mcf = mcf::PasswordHashRef::new(beginning).is_ok();
        holds(is_mcf == (len > 1), "whether it is an MCF string")?;
        let is_wanted = is_mcf_verdict(rt.alloc(), beginning, b"", wanted_of_beginning(len));
        holds(is_wanted, "its verdict")?;
    }
    Ok(())
}

// The verdict on its password by the prefix of this length of a PHC hash. Without the whole salt
// there is no key, and a prefix that ends in the key is the hash of a shorter key.
fn wanted_of_phc_beginning(len: usize) -> Verdict {
    match len {
        2..=6 => Err(Error::Algorithm),
        7 | 12 | 13 | 17 | 21 | 26 | 30 | 33 | 34 | 38 | 42 | 44 => Err(Error::PasswordInvalid),
        61 | 65 | 69 | 73 | 77 | 81 | 85 | 88 => Ok(()),
        _ => Err(Error::EncodingInvalid),
    }
}

#[test]
fn beginnings_of_a_phc_hash(rt: HostRuntime) -> Result<(), Fail> {
    for len in 0..=88 {
        let beginning = PHC.get(..len).unwrap_or("");
        let wanted = wanted_of_phc_beginning(len);
        let is_wanted = is_phc_verdict(rt.alloc(), beginning, b"password", wanted);
        holds(is_wanted, "its verdict")?;
    }
    Ok(())
}

// The verdict by the hash with this byte at this position.
fn wanted_of_replaced(at: usize, by: u8) -> Verdict {
    match value(by) {
        Some(value) if at < 57 || value < 16 => Err(Error::PasswordInvalid),
        _ => Err(Error::EncodingInvalid),
    }
}

// Whether these bytes are a text with this verdict.
fn is_verdict_of(alloc: Global, bytes: &[u8], wanted: Verdict) -> bool {
    match str::from_utf8(bytes) {
        Ok(text) => is_mcf_verdict(alloc, text, b"", wanted),
        Err(_) => false,
    }
}

#[test]
fn each_character_of_a_key_replaced(rt: HostRuntime) -> Result<(), Fail> {
    texts_have_one_reading();
    let mut letters = [0; 58];
    letters.copy_from_slice(EMPTY.as_bytes().get(..58).ok_or("too short")?);
    let mut texts = 0u32;
    for at in KEY_AT..58 {
        let letter = letters[at];
        for by in 0u8..128 {
            if by == letter {
                continue;
            }
            letters[at] = by;
            let wanted = wanted_of_replaced(at, by);
            holds(is_verdict_of(rt.alloc(), &letters, wanted), "its verdict")?;
            texts = texts.saturating_add(1);
        }
        letters[at] = letter;
    }
    holds(texts == 5461, "43 places with 127 characters each")
}

// A `$7$` hash without a key.
const LEAST: &str = "$7$2/..../....$";

// An MCF string, a text that is repeated a million times after it, the number of fields, their
// total length, the verdict, and the reason for the row.
static MILLIONS: [(&str, &str, usize, usize, Error, &str); 2] = [
    (LEAST, ".", 2, 1_000_011, Error::PasswordInvalid, "a key"),
    ("$7", "$", 1_000_000, 0, Error::EncodingInvalid, "fields"),
];

// Whether a text has this number of fields, with this total length.
fn has_fields(text: &str, wanted: usize, wanted_len: usize) -> bool {
    let Ok(hash) = mcf::PasswordHashRef::new(text) else {
        return false;
    };
    let (mut fields, mut len) = (0usize, 0usize);
    for field in hash.fields() {
        fields = fields.saturating_add(1);
        len = len.saturating_add(field.as_str().len());
    }
    fields == wanted && len == wanted_len
}

#[test]
fn a_million_letters(rt: HostRuntime) -> Result<(), Fail> {
    for &(first, letter, fields, len, error, reason) in &MILLIONS {
        let text = followed(rt.alloc(), first, letter, 1_000_000)?;
        holds(has_fields(text.as_str(), fields, len), reason)?;
        let is_refused = is_mcf_verdict(rt.alloc(), text.as_str(), b"", Err(error));
        holds(is_refused, reason)?;
    }
    Ok(())
}
