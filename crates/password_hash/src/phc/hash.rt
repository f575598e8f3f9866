//! A password hash in the PHC string format.
ghost use Rattle.std.specs.Prelude.{◌≡◌, IfOk, ok_or};
ghost use Rattle.password_hash.specs.{hash_after, hash_text, parts_left, read_hash};
ghost use Rattle.password_hash.specs.declared.error.Error.TheVariants.{EncodingInvalid};

use crate::parts::split_first;
use crate::phc::parts::{take_params, take_salt_and_key, take_version};
use crate::phc::{Ident, Output, ParamsString, Salt};
use crate::{Error, Result, Version};

/// A password hash: `$algorithm$v=version$name=value,name=value$salt$key`.
///
/// Every part but the algorithm is optional, and a key is printed only after a salt.
#[derive(Debug, PartialEq, Eq, Drop)]
pub struct PasswordHash {
    /// The name of the algorithm.
    pub algorithm: Ident,
    /// The version of the algorithm.
    pub version: Option<Version>,
    /// The parameters of the algorithm.
    pub params: ParamsString,
    /// The salt.
    pub salt: Option<Salt>,
    /// The key that the algorithm derived from the password and the salt.
    pub hash: Option<Output>,
}

impl PasswordHash {
    /// Parses a password hash: `$` and the algorithm, then the version, the parameters, the salt
    /// and the key in this order. Each part after the algorithm follows a `$` and is optional, but
    /// a key needs a salt. The hash is printed as the same text.
    ///
    /// Returns `EncodingInvalid` if `text` does not have this form.
    #[tactic(auto, using(crate::proofs::PhcReadingFacts::printed_back))]
    pub fn new(text: &str) -> Result<PasswordHash>
        ensures value { result ≡ ok_or (read_hash text.now) EncodingInvalid }
        ensures printed_back { IfOk result (λ hash. hash_text hash ≡ text.now) }
    {
        parse(text).ok_or(Error::EncodingInvalid)
    }
}

/// Parses a password hash. Returns `None` if `text` is not a password hash.
fn parse(text: &str) -> Option<PasswordHash>
    ensures value { result ≡ read_hash text.now }
{
    let (algorithm, left) = split_first(text)?;
    let Ok(algorithm) = Ident::new(algorithm) else {
        return None;
    };
    parse_after(algorithm, left)
}

/// Parses the rest of a password hash, after its algorithm.
fn parse_after(algorithm: Ident, left: Option<&str>) -> Option<PasswordHash>
    ensures { result ≡ hash_after algorithm (parts_left left.entry) }
{
    let (version, left) = take_version(left)?;
    let (params, left) = take_params(left)?;
    let (salt, hash) = take_salt_and_key(left)?;
    Some(PasswordHash {
        algorithm,
        version,
        params,
        salt,
        hash,
    })
}
