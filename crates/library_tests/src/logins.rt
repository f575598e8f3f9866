// Batches of logins.

use crate::holds;
use scrypt::{
    BufferLens, Buffers, CoreCount, Decoy, LimitedError, Login, LoginHash, Params, StoredHash,
};
use std::alloc::{AllocError, Global};
use std::test::Fail;

// The hash of `pw` by (4, 1, 1), by Python's hashlib.
const HASH: &str =
    "$scrypt$ln=4,r=1,p=1$TmFDbE5hQ2xOYUNsTmFDbA$byFamdVzF4dSYG0oEkkoOuYyJ2d96S6WZWa49NYGK8w";

// For a decoy with the parameters of this hash.
const DECOY: &str = "decoy";

// With this many logins, a recursive call for each would overflow the stack.
const MANY: usize = 100_000;

// The texts of the first login and of the others, and whether the first and the last are verified.
// Rejecting a text that cannot be read takes no time.
static LOGINS: [(&str, &str, bool, bool, &str); 4] = [
    ("", "", false, false, "each is rejected separately"),
    (HASH, "", true, false, "one batch, with one derivation"),
    ("", HASH, false, true, "the others in a batch"),
    (DECOY, HASH, false, true, "a decoy accepts nothing"),
];

// The hash of a text, or a decoy.
fn hash_of(text: &'static str, params: &Params) -> Result<LoginHash<'static>, LimitedError> {
    if text == DECOY {
        return Ok(LoginHash::Decoy(Decoy::new(params)));
    }
    match StoredHash::read(text) {
        Ok(hash) => Ok(LoginHash::Stored(hash)),
        Err(error) => Err(LimitedError::Hash(error)),
    }
}

// Logins with the same password.
fn logins_of(
    alloc: Global,
    first: &'static str,
    others: &'static str,
    params: &Params,
) -> Result<Vec<Login<'static, 'static>>, AllocError> {
    let mut logins = Vec::with_capacity(alloc, MANY)?;
    for i in 0..MANY {
        logins.push(Login {
            password: b"pw",
            hash: hash_of(if i == 0 { first } else { others }, params),
        })?;
    }
    Ok(logins)
}

fn is_verified(verdict: Option<&Result<(), LimitedError>>) -> bool {
    matches!(verdict, Some(Ok(())))
}

#[test]
fn many_logins(rt: HostRuntime) -> Result<(), Fail> {
    let lens = BufferLens {
        chunks: 128 * MANY,
        table: 2048,
        scratch: 256,
    };
    let params = Params::new(4, 1, 1)?;
    let alloc = rt.alloc();
    let mut own = Buffers::allocate(alloc, &lens)?;
    for &(first, others, is_first, is_last, reason) in &LOGINS {
        let logins = logins_of(alloc, first, others, &params)?;
        let mut verdicts = vec![in alloc; Ok(()); logins.len()]?;
        own.verify_logins(&logins, &mut verdicts, &mut CoreCount::new());
        let wanted = (is_first, is_last);
        holds(
            (is_verified(verdicts.first()), is_verified(verdicts.last())) == wanted,
            reason,
        )?;
    }
    Ok(())
}
