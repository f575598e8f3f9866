// Five-letter numbers, the parameters of `$7$` hashes, crypt Base64, and MCF strings.

use crate::{holds, is};
use password_hash::Error::{self, EncodingInvalid, ParamsInvalid};
use password_hash::mcf::{self, Base64, PasswordHash, PasswordHashRef};
use scrypt::mcf::{decode_params_and_salt, decode64_uint32, encode64_uint32};
use std::alloc::Global;
use std::str;
use std::test::Fail;

// Numbers, their letters, the number that is read from these, and the reason for the row.
static NUMBERS: [(u32, &[u8; 5], u32, &str); 5] = [
    (32, b"U....", 32, "libxcrypt's r"),
    (1, b"/....", 1, "the lowest digit comes first"),
    (268_435_488, b"U...E", 268_435_488, "the fifth counts"),
    (1_073_741_823, b"zzzzz", 1_073_741_823, "the greatest"),
    (1_073_741_824, b".....", 0, "modulo 2^30"),
];

#[test]
fn numbers_of_five_letters() -> Result<(), Fail> {
    for &(number, letters, read, reason) in &NUMBERS {
        let mut out = *b"!!!!!!";
        encode64_uint32(&mut out, number)?;
        holds(out[..5] == letters[..] && out[5] == b'!', reason)?;
        holds(decode64_uint32(letters) == Ok(read), reason)?;
    }
    holds(decode64_uint32(b"U...") == Err(EncodingInvalid), "four")
}

// libxcrypt's parameters and salt.
const MADE: &str = "CU..../....Mq4YHD2syxYT.MsH1Ek0n1";

const SALT: &[u8] = b"Mq4YHD2syxYT.MsH1Ek0n1";

// Texts, the log_n, r, p and salt that are read, or the error, and the reason for the row.
static PARAMS: [(&str, Result<(u8, u32, u32, &[u8]), Error>, &str); 10] = [
    (MADE, Ok((14, 32, 1, SALT)), "libxcrypt's"),
    ("./..../....", Ok((0, 1, 1, b"")), "the least"),
    ("2/....zzzzz", Ok((4, 1, 1_073_741_823, b"")), "p"),
    ("s/..../....", Ok((56, 1, 1, b"")), "the greatest log_n"),
    ("C...../....", Err(ParamsInvalid), "r is 0"),
    ("2U....zzzzz", Err(ParamsInvalid), "r * p is above 2^30"),
    ("zzzzzzzzzzz", Err(ParamsInvalid), "each is the greatest"),
    ("*U..../....", Err(ParamsInvalid), "log_n reads as 255"),
    ("*U...", Err(EncodingInvalid), "no p"),
    ("", Err(EncodingInvalid), "no letter"),
];

// The parameters and the salt of a text, or the error of reading them.
fn read(text: &str) -> Result<(u8, u32, u32, &[u8]), Error> {
    match decode_params_and_salt(text) {
        Ok((params, salt)) => Ok((params.log_n(), params.r(), params.p(), salt)),
        Err(refused) => Err(refused),
    }
}

#[test]
fn params_and_salts() -> Result<(), Fail> {
    for &(text, wanted, reason) in &PARAMS {
        holds(read(text) == wanted, reason)?;
    }
    Ok(())
}

// Each letter of r and p is replaced.
#[test]
fn no_letters_of_numbers() -> Result<(), Fail> {
    for at in 1..11 {
        for &by in b"$* -" {
            let mut letters = *b"CU..../....";
            letters[at] = by;
            let read = read(str::from_utf8(&letters)?);
            holds(read == Err(EncodingInvalid), "no letter")?;
        }
    }
    Ok(())
}

// Texts, and their ids and fields.
static TEXTS: [(&str, &str, &[&str]); 4] = [
    ("$7", "7", &[]),
    ("$7$", "7", &[""]),
    ("$7$a$$b", "7", &["a", "", "b"]),
    ("$7$\u{e9}", "7", &["\u{e9}"]),
];

#[test]
fn ids_and_fields() -> Result<(), Fail> {
    for &(text, id, wanted) in &TEXTS {
        let (hash, mut left) = (PasswordHashRef::new(text)?, wanted.iter());
        for field in hash.fields() {
            holds(left.next() == Some(&field.as_str()), text)?;
        }
        holds(is(hash.id(), id) && left.next().is_none(), text)?;
    }
    for &text in &["", "$", "7", "$A$a", "$$a", "$7a_$"] {
        let refused = PasswordHashRef::new(text).err();
        holds(refused == Some(mcf::Error::EncodingInvalid), text)?;
    }
    Ok(())
}

// Whether a field with a dollar is rejected.
fn refuses_a_dollar(hash: &mut PasswordHash) -> bool {
    hash.push_str("a$b") == Err(mcf::Error::EncodingInvalid)
}

#[test]
fn pushes(rt: HostRuntime) -> Result<(), Fail> {
    let mut hash = PasswordHash::from_id(rt.alloc(), "7")?;
    holds(is(hash.as_str(), "$7"), "an id")?;
    hash.push_str("")?;
    holds(refuses_a_dollar(&mut hash), "a dollar")?;
    holds(is(hash.as_str(), "$7$"), "an empty field")?;
    hash.push_base64(rt.alloc(), &[0xff, 0xff], Base64::Crypt)?;
    holds(is(hash.as_str(), "$7$$zzD"), "two bytes")
}

// The bytes of these letters; a text and a field of a hash must decode to the same.
fn decoded(alloc: Global, letters: &str) -> Result<mcf::Result<Vec<u8>>, Fail> {
    let mut hash = PasswordHash::from_id(alloc, "7")?;
    hash.push_str(letters)?;
    let field = hash.fields().next().ok_or("no field")?;
    let bytes = Base64::Crypt.decode_vec(alloc, letters);
    let of_field = field.decode_base64(alloc, Base64::Crypt);
    holds(of_field == bytes, "the field has others")?;
    let is_so = match &bytes {
        Ok(bytes) => field.base64_matches(bytes) && !field.base64_matches(b"other"),
        Err(_) => !field.base64_matches(b""),
    };
    holds(is_so, "it matches its bytes alone")?;
    Ok(bytes)
}

const BYTES: &[u8] = b"\x98\x6d\x90\xd3\x43\xe0\x7e\x4f\x7e\x00\x86\x4f\x03\x04\x0b\xf3";

// Bytes and their letters.
static LETTERS: [(&[u8], &str); 8] = [
    (&[], ""),
    (&[0xff], "z1"),
    (&[0xff, 0xff], "zzD"),
    (&[0xff, 0xff, 0xff], "zzzz"),
    (&[1], "/."),
    (&[0, 0, 0], "...."),
    (&[1, 2, 3], "/6k."),
    (BYTES, "Mq4YHD2syxYT.MsH1Ek0n1"),
];

// Letters that do not encode any bytes, and why.
static NO_LETTERS: [(&str, &str); 4] = [
    ("z", "a letter alone"),
    ("z2", "spare bits of one byte are set"),
    ("zzE", "spare bits of two bytes are set"),
    ("zz=", "padding"),
];

#[test]
fn letters_of_bytes(rt: HostRuntime) -> Result<(), Fail> {
    for &(bytes, letters) in &LETTERS {
        let encoded = Base64::Crypt.encode_string(rt.alloc(), bytes)?;
        holds(is(encoded.as_str(), letters), letters)?;
        let decoded = decoded(rt.alloc(), letters)??;
        holds(decoded.as_slice() == bytes, letters)?;
    }
    for &(letters, reason) in &NO_LETTERS {
        let refused = decoded(rt.alloc(), letters)?.err();
        holds(refused == Some(mcf::Error::EncodingInvalid), reason)?;
    }
    Ok(())
}

const REFUSED: mcf::Result<usize> = Err(mcf::Error::EncodingInvalid);

// The length of some bytes, and the number of their letters.
const LENS: [(usize, usize); 6] = [(0, 0), (1, 2), (2, 3), (3, 4), (32, 43), (64, 86)];

#[test]
fn letters_in_slices() -> Result<(), Fail> {
    let (bytes, mut out) = ([1, 2, 3], *b"!!!!!");
    let short = Base64::Crypt.encode_slice(&bytes, &mut out[..3]) == REFUSED;
    holds(short && out == *b"!!!!!", "three places")?;
    let written = Base64::Crypt.encode_slice(&bytes, &mut out)?;
    holds(written == 4 && out == *b"/6k.!", "five places")?;
    for &(len, letters) in &LENS {
        let is_so = Base64::Crypt.encoded_len(len) == letters;
        holds(is_so, "the number of letters")?;
    }
    Ok(())
}
