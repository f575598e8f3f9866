// A successful run of each example that allocates: the result is what its contract states.

use crate::holds;
use password_hash::Error;
use scrypt::{LimitedError, Limits, Params};
use scrypt_examples::account::Account;
use scrypt_examples::bounded_login::BoundedLogins;
use scrypt_examples::hash::stored_text;
use scrypt_examples::key_file::{Header, Subkeys, age_wrap_key};
use scrypt_examples::login::LoginPolicy;
use std::test::Fail;

const PASSWORD: &[u8] = b"correct horse";

const SALT: [u8; 16] = *b"defghijklmnopqrs";

// With this salt, at (4, 1, 1): the key is hashlib's.
const PHC: &str =
    "$scrypt$ln=4,r=1,p=1$ZGVmZ2hpamtsbW5vcHFycw$jdoIFJE+GqhpKAqcYiumVC2C9bccDCDeW4O74ncue24";

// libxcrypt's, at (4, 1, 1).
const MCF: &str = "$7$2/..../....saltsalt$jkmZo0SWQYHT33y104X81uA.YmckoO6LcD4HDzN9sJ2";

// The keys of a file with the salt [7; 32], at (4, 8, 1): hashlib's.
static ENCRYPTION: [u8; 32] = [
    0x49, 0x2f, 0x6a, 0x80, 0xd3, 0xf0, 0x03, 0x22, 0x50, 0x38, 0xe0, 0x8a, 0x70, 0xcf, 0xc5, 0x73,
    0xe6, 0xbb, 0xce, 0x12, 0xfc, 0x0c, 0x3c, 0xca, 0x6c, 0x32, 0x21, 0xf5, 0x3a, 0xe6, 0x26, 0x2e,
];

static AUTHENTICATION: [u8; 32] = [
    0x58, 0xe6, 0x6f, 0x1d, 0x7a, 0x69, 0xc0, 0x40, 0xa9, 0x15, 0xc6, 0xa2, 0xa5, 0xfe, 0xa2, 0x83,
    0x9f, 0xeb, 0x9a, 0x9c, 0xfc, 0x7c, 0xc3, 0xa0, 0xc0, 0x4e, 0x45, 0x5e, 0xba, 0xf6, 0x21, 0xd4,
];

fn are_right(keys: &Subkeys) -> bool {
    keys.encryption == ENCRYPTION && keys.authentication == AUTHENTICATION
}

#[test]
fn keys_of_files(rt: HostRuntime) -> Result<(), Fail> {
    let header = Header {
        params: Params::new(4, 8, 1)?,
        salt: [7; 32],
    };
    holds(are_right(&header.subkeys(rt.alloc(), PASSWORD)?), "at once")?;
    let all = header.params.cores();
    let keys = header.subkeys_in_steps(rt.alloc(), PASSWORD, |done| done <= all)?;
    holds(keys.is_some_and(|keys| are_right(&keys)), "in steps")?;
    let keys = header.subkeys_in_steps(rt.alloc(), PASSWORD, |done| done < all)?;
    holds(keys.is_none(), "cancelled after the last step")?;
    age_wrap_key(rt.alloc(), PASSWORD, 4, SALT)?;
    Ok(())
}

#[test]
fn stored_texts(rt: HostRuntime) -> Result<(), Fail> {
    stored_text(rt.alloc(), PASSWORD, SALT)?;
    LoginPolicy::new(4, 1, 1)?.enroll_mcf(rt.alloc(), PASSWORD, SALT)?;
    // The text is weaker than wanted, so that a new one is made.
    LoginPolicy::new(5, 1, 1)?.log_in(rt.alloc(), PHC, PASSWORD, SALT)?;
    Ok(())
}

#[test]
fn bounded_logins(rt: HostRuntime) -> Result<(), Fail> {
    let limits = Limits {
        max_mem: 1 << 20,
        ..Limits::DEFAULT
    };
    let mut logins = BoundedLogins::new(rt.alloc(), limits)?;
    holds(logins.log_in(PHC, PASSWORD)?, "by a PHC string")?;
    holds(logins.log_in(MCF, PASSWORD)?, "by a `$7$` hash")?;
    let verdicts = logins.log_in_both((PHC, PASSWORD), (MCF, b"wrong"));
    let wrong = Err(LimitedError::Hash(Error::PasswordInvalid));
    holds(verdicts == [Ok(()), wrong], "both, the second wrong")
}

#[test]
fn accounts(rt: HostRuntime) -> Result<(), Fail> {
    let wide = Limits::for_new(&Params::new(5, 1, 1)?, 32);
    // Below this policy and its hashes, and above (4, 1, 1).
    let narrow = Limits {
        max_work: 4 * (16 + 32),
        ..wide
    };
    let policy = Params::new(4, 1, 1)?;
    let Some(mut account) = Account::sign_up(rt.alloc(), policy, narrow, PASSWORD, SALT)? else {
        return Err("sign-up".into());
    };
    holds(
        !account.set_policy(Params::new(5, 1, 1)?),
        "policy above the limits",
    )?;
    holds(account.set_limits(wide), "raised limits")?;
    holds(account.set_policy(Params::new(5, 1, 1)?), "raised policy")?;
    holds(
        !account.log_in(rt.alloc(), b"wrong", SALT)?,
        "wrong password",
    )?;
    holds(
        account.log_in(rt.alloc(), PASSWORD, SALT)?,
        "renewing login",
    )?;
    holds(!account.set_limits(narrow), "limits below the policy")?;
    holds(account.set_policy(Params::new(4, 1, 1)?), "lowered policy")?;
    holds(!account.set_limits(narrow), "limits below the renewed hash")?;
    let changed = account.change_password(rt.alloc(), PASSWORD, b"new", SALT)?;
    holds(changed && account.set_limits(narrow), "lowered limits")?;
    holds(account.log_in(rt.alloc(), b"new", SALT)?, "new password")
}
