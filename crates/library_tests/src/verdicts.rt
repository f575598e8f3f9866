// The verdicts that the calls return on stored hashes, and which hashes are weaker than wanted.
// `tools/tests/program.py` asks the built program for those of `bindings/cases.tsv`.

use crate::failing_allocations::{check, done_if};
use crate::hashes::{EMPTY, LETMEIN, MCF, PHC, THIRD_OF_10, params_of};
use crate::holds;
use password_hash::Error::{
    self, Algorithm, EncodingInvalid, OutOfMemory, OutputSize, ParamInvalid, ParamsInvalid,
    PasswordInvalid, Version,
};
use password_hash::{PasswordVerifier, RehashCheck, mcf, phc};
use scrypt::{InvalidParams, Scrypt, StoredHash};
use std::alloc::Global;
use std::test::Fail;

pub type Verdict = Result<(), Error>;

// The verdict by a stored text, which can have either format.
fn stored_verdict(alloc: Global, text: &str, password: &[u8]) -> Verdict {
    match StoredHash::read(text) {
        Ok(hash) => hash.verify(alloc, password),
        Err(refused) => Err(refused),
    }
}

// Whether each call returns this verdict on a PHC string.
pub fn is_phc_verdict(alloc: Global, text: &str, password: &[u8], wanted: Verdict) -> bool {
    let verdict = match phc::PasswordHash::new(text) {
        Ok(hash) => Scrypt::new().verify_password(alloc, password, &hash),
        Err(refused) => Err(refused),
    };
    verdict == wanted && stored_verdict(alloc, text, password) == wanted
}

// The verdict by a borrowed MCF string.
fn borrowed_verdict(alloc: Global, text: &str, password: &[u8]) -> Verdict {
    match mcf::PasswordHashRef::new(text) {
        Ok(hash) => Scrypt::new().verify_password(alloc, password, &hash),
        Err(_) => Err(EncodingInvalid),
    }
}

// The verdict by an owned copy of an MCF string.
fn owned_verdict(alloc: Global, text: &str, password: &[u8]) -> Verdict {
    match mcf::PasswordHash::new(alloc, text) {
        Ok(hash) => Scrypt::new().verify_password(alloc, password, &hash),
        Err(mcf::Error::EncodingInvalid) => Err(EncodingInvalid),
        Err(mcf::Error::OutOfMemory) => Err(OutOfMemory),
    }
}

// Whether an MCF string, borrowed, owned and stored, has this verdict each time. A stored text with
// another id than `7` is read as a PHC string.
pub fn is_mcf_verdict(alloc: Global, text: &str, password: &[u8], wanted: Verdict) -> bool {
    borrowed_verdict(alloc, text, password) == wanted
        && owned_verdict(alloc, text, password) == wanted
        && (!text.starts_with("$7") || stored_verdict(alloc, text, password) == wanted)
}

const NO: Verdict = Err(PasswordInvalid);

const UNREAD: Verdict = Err(EncodingInvalid);

const LN: Verdict = Err(ParamInvalid { name: "ln" });

const R: Verdict = Err(ParamInvalid { name: "r" });

const PHC_KEY: &str = "$nFNh2CVHVjNldFVKDHDlm4CbdRSCdEBsjjJxD+iCs5E";

const LARGE: &str = "$scrypt$ln=56,r=1,p=1$aA$AAAAAAAAAAAAAA";

// What is replaced in a hash of `password` by what, the verdict, and the reason for the row.
static PHC_VERDICTS: [(&str, &str, Verdict, &str); 14] = [
    ("", "", Ok(()), "the password"),
    (",r=8,p=1", "", Ok(()), "the others are 8 and 1"),
    ("ln=16,r=8,p=1", "p=1,r=8,ln=16", Ok(()), "another order"),
    ("iCs5E", "iCs5F", UNREAD, "spare bits"),
    ("$ln", "$v=1$ln", Err(Version), "a version"),
    ("ln=16", "ln=256", LN, "log_n is above 255"),
    ("ln=16", "ln=016", LN, "log_n begins with 0"),
    ("r=8", "r=4294967296", R, "r is 2^32"),
    ("p=1", "p=1,x=1", Err(ParamsInvalid), "x"),
    ("ln=16", "ln=57", Err(ParamsInvalid), "N * r is 2^60"),
    ("r=8", "r=0", Err(ParamsInvalid), "r is 0"),
    ("scrypt", "argon2id", Err(Algorithm), "no scrypt"),
    (PHC_KEY, "", NO, "no key"),
    (PHC, LARGE, Err(OutOfMemory), "a table of 2^63 bytes"),
];

#[test]
fn by_phc_hashes(rt: HostRuntime) -> Result<(), Fail> {
    let alloc = rt.alloc();
    for &(old, new, wanted, reason) in &PHC_VERDICTS {
        let text = PHC.replace(alloc, old, new)?;
        let is_wanted = is_phc_verdict(alloc, text.as_str(), b"password", wanted);
        holds(is_wanted, reason)?;
    }
    holds(is_phc_verdict(alloc, PHC, b"invalid", NO), "another one")
}

const MCF_KEY: &str = "$JyHIxez0DOwm0r6.kAIohc8UFBOLU4xX8a1wGBpLrw7";

// The third key of RFC 7914, section 12, whose salt is plain text.
const PLAIN: &str = "$7$C6..../....SodiumChloride$kBGj9fHznVYFQMEn/qDCfrDevf9YDtcDdKvEqHJLV8D";

// An MCF string, what is replaced in it by what, a password, the verdict, and the reason.
static MCF_VERDICTS: [(&str, &str, &str, &str, Verdict, &str); 21] = [
    (MCF, "", "", "bogus", NO, "another password"),
    (MCF, "Lrw7", "LrwD", LETMEIN, NO, "another key"),
    (PLAIN, "", "", LETMEIN, Ok(()), "a salt of plain text"),
    (EMPTY, "I62", "I62z", "", Ok(()), "33 bytes of a key"),
    ("$7$2/..../....$r/", "", "", "", Ok(()), "a byte of a key"),
    ("$7$2/..../....$s/", "", "", "", NO, "another byte"),
    ("$7$s/..../....$r/", "", "", "", Err(OutOfMemory), "2^63"),
    (MCF, "$7", "$8", LETMEIN, Err(Algorithm), "another id"),
    ("$8$a", "", "", "", Err(Algorithm), "which comes first"),
    (MCF, "Lrw7", "LrwE", LETMEIN, UNREAD, "spare bits"),
    (MCF, "Lrw7", "Lrw7$", LETMEIN, UNREAD, "a third field"),
    (MCF, MCF_KEY, "", LETMEIN, UNREAD, "no key"),
    ("$7$", "", "", LETMEIN, UNREAD, "an empty field"),
    ("$7", "", "", LETMEIN, UNREAD, "no field"),
    ("$7$\u{e9}/..../....$r/", "", "", "", UNREAD, "not ASCII"),
    ("$7$*/...$r/", "", "", "", UNREAD, "four letters"),
    (MCF, MCF_KEY, "$", LETMEIN, Err(OutputSize), "an empty key"),
    (MCF, "$C", "$*", LETMEIN, Err(ParamsInvalid), "log_n is 255"),
    ("$7$*/..../....$r/", "", "", "", Err(ParamsInvalid), "255"),
    (MCF, "CU", "t/", LETMEIN, Err(ParamsInvalid), "log_n is 57"),
    ("$7$t/..../....$r/", "", "", "", Err(ParamsInvalid), "57"),
];

// A hash that is rejected is so before anything is allocated.
#[test]
fn by_mcf_hashes(rt: HostRuntime) -> Result<(), Fail> {
    let alloc = rt.alloc();
    for &(hash, old, new, password, wanted, reason) in &MCF_VERDICTS {
        let (text, password) = (hash.replace(alloc, old, new)?, password.as_bytes());
        let is_wanted = is_mcf_verdict(alloc, text.as_str(), password, wanted);
        holds(is_wanted, reason)?;
        if !matches!(wanted, Ok(()) | Err(PasswordInvalid | OutOfMemory)) {
            let again = || done_if(borrowed_verdict(alloc, text.as_str(), password) == wanted);
            check(alloc, &[], again)?;
        }
    }
    Ok(())
}

const RECOMMENDED: (u8, u32, u32) = (17, 8, 1);

// A hash, the wanted log_n, r, p and length, or 0 for none, whether it is weaker, and the reason.
static WEAKER: [(&str, (u8, u32, u32), usize, Result<bool, Error>, &str); 13] = [
    (PHC, RECOMMENDED, 0, Ok(true), "the recommended parameters"),
    (PHC, (16, 8, 1), 0, Ok(false), "its own"),
    (PHC, (15, 8, 1), 0, Ok(false), "lower ones"),
    (PHC, (15, 16, 1), 0, Ok(true), "r is below"),
    (PHC, (16, 8, 2), 0, Ok(true), "p is below"),
    (PHC, (16, 8, 1), 33, Ok(true), "the length is below"),
    (PHC, (16, 8, 1), 10, Ok(false), "a shorter key"),
    (THIRD_OF_10, (14, 8, 1), 0, Ok(true), "32 bytes are wanted"),
    ("$scrypt$ln=4$aA", RECOMMENDED, 0, Err(PasswordInvalid), ""),
    (MCF, RECOMMENDED, 0, Ok(true), "the other format"),
    (MCF, (14, 8, 1), 0, Ok(false), "lower ones"),
    ("$8$a", RECOMMENDED, 0, Err(Algorithm), "another id"),
    ("$7$2/..../....$", RECOMMENDED, 0, Err(OutputSize), "no key"),
];

// A hasher with these parameters: `Scrypt::new` has the recommended ones.
fn hasher_of(costs: (u8, u32, u32), len: usize) -> Result<Scrypt, InvalidParams> {
    if costs == RECOMMENDED {
        return Ok(Scrypt::new());
    }
    Ok(Scrypt::from(params_of(costs, len)?))
}

// Whether a hash is weaker than wanted. Only MCF strings have identifiers of one digit.
fn is_weaker(wanted: &Scrypt, text: &str) -> Result<bool, Error> {
    match mcf::PasswordHashRef::new(text) {
        Ok(hash) if hash.id().len() == 1 => wanted.needs_rehash(&hash),
        _ => wanted.needs_rehash(&phc::PasswordHash::new(text)?),
    }
}

#[test]
fn weaker_hashes() -> Result<(), Fail> {
    for &(text, wanted, len, weaker, reason) in &WEAKER {
        let wanted = hasher_of(wanted, len)?;
        holds(is_weaker(&wanted, text) == weaker, reason)?;
    }
    Ok(())
}
