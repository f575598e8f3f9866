// PHC strings, their decimals and their parameters.

use crate::hash_allocations::followed;
use crate::hashes::PHC;
use crate::{holds, is};
use password_hash::Error::{self, EncodingInvalid, ParamsInvalid};
use password_hash::phc::{ParamsString, PasswordHash};
use scrypt::Params;
use std::alloc::Global;
use std::test::Fail;

// Parameters, the number that is read from `a`, and the reason for the row.
static DECIMALS: [(&str, Result<u32, Error>, &str); 5] = [
    ("a=0", Ok(0), "zero"),
    ("b=1,a=4294967295", Ok(4_294_967_295), "the greatest number"),
    ("a=00,b=1", Err(EncodingInvalid), "a leading zero"),
    ("a=+1", Err(EncodingInvalid), "a sign"),
    ("a=4294967296", Err(EncodingInvalid), "2^32"),
];

#[test]
fn decimals() -> Result<(), Fail> {
    for &(text, wanted, reason) in &DECIMALS {
        let params = ParamsString::parse(text)?;
        let value = params.get("a").ok_or(reason)?;
        holds(value.decimal() == wanted, reason)?;
    }
    Ok(())
}

// Parameters, the number of zeros after them, a name that is added with the number 1, whether it
// is, and the reason for the row.
static ADDED: [(&str, usize, &str, bool, &str); 5] = [
    ("ln=1", 0, "ln", false, "the same name"),
    ("ln=1", 0, "v", false, "the name of the version"),
    ("ln=1", 0, "LN", false, "no name"),
    ("x=", 121, "a", true, "127 bytes"),
    ("x=", 122, "a", false, "128 bytes"),
];

#[test]
fn added_parameters(rt: HostRuntime) -> Result<(), Fail> {
    for &(first, zeros, name, is_added, reason) in &ADDED {
        let old = followed(rt.alloc(), first, "0", zeros)?;
        let mut params = ParamsString::parse(old.as_str())?;
        let wanted = if is_added { Ok(()) } else { Err(ParamsInvalid) };
        holds(params.add_decimal(name, 1) == wanted, reason)?;
        let end = if is_added { ",a=1" } else { "" };
        let new = followed(rt.alloc(), old.as_str(), end, 1)?;
        holds(is(params.as_str(), new.as_str()), reason)?;
    }
    Ok(())
}

// The beginning of a text, a letter that follows it some times, whether the text is read, and the
// reason for the row. `tools/tests/hostile.py` has more texts that are rejected.
static TEXTS: [(&str, &str, usize, bool, &str); 20] = [
    ("$scrypt", "", 0, true, "the algorithm alone"),
    ("$scrypt$v=0", "", 0, true, "the least version"),
    ("$scrypt$v=1$ln=1$aA$", "A", 14, true, "the shortest parts"),
    ("$scrypt$x=", "0", 125, true, "127 bytes of parameters"),
    ("$", "a", 32, true, "an algorithm of 32 letters"),
    ("", "", 0, false, "the empty text"),
    ("$", "", 0, false, "no algorithm"),
    ("scrypt", "", 0, false, "no dollar"),
    ("$Scrypt", "", 0, false, "a capital"),
    ("$scrypt$", "", 0, false, "an empty part"),
    ("$scrypt$v=01", "", 0, false, "a leading zero"),
    ("$scrypt$v=4294967296", "", 0, false, "a version of 2^32"),
    ("$scrypt$ln=", "", 0, false, "an empty value"),
    ("$scrypt$ln=1,ln=2", "", 0, false, "a name twice"),
    ("$scrypt$aM", "", 0, false, "spare bits of the salt"),
    ("$scrypt$aA==", "", 0, false, "padding"),
    ("$scrypt$aA$", "A", 12, false, "a key of 9 bytes"),
    ("$scrypt$aA$", "A", 87, false, "a key of 65 bytes"),
    ("$scrypt$x=", "0", 126, false, "128 bytes of parameters"),
    ("$", "a", 33, false, "an algorithm of 33 letters"),
];

// Whether a text is printed as it was read, or fails to be read.
fn is_printed(alloc: Global, text: &str, is_read: bool) -> Result<bool, Fail> {
    match PasswordHash::new(text) {
        Ok(hash) => Ok(is_read && is(hash.to_string(alloc)?.as_str(), text)),
        Err(refused) => Ok(!is_read && refused == EncodingInvalid),
    }
}

#[test]
fn texts(rt: HostRuntime) -> Result<(), Fail> {
    for &(first, letter, count, is_read, reason) in &TEXTS {
        let text = followed(rt.alloc(), first, letter, count)?;
        holds(is_printed(rt.alloc(), text.as_str(), is_read)?, reason)?;
    }
    Ok(())
}

#[test]
fn parameters_of_a_hash() -> Result<(), Fail> {
    let hash = PasswordHash::new(PHC)?;
    let params = Params::new_with_output_len(16, 8, 1, 32)?;
    holds(Params::try_from(&hash) == Ok(params), "with its length")?;
    holds(params != Params::new(16, 8, 1)?, "which is compared")?;
    let written = ParamsString::try_from(&params)?;
    holds(is(written.as_str(), "ln=16,r=8,p=1"), "without it")
}
