// Reading PHC hashes.

ghost use Rattle.std.specs.Prelude.{◌≡◌, ◌↔◌, codes, IsTrue};
ghost use Rattle.scrypt.specs.Terms.{mapped, phc_params, read_phc, stored, with_refusal};

use crate::Params;
use crate::phc::ALG_ID;
use crate::stored_parts::{Key, Salt, StoredParts};
use password_hash::phc::{Ident, PasswordHash};
use password_hash::{Error, Result};

/// Returns the parts of a hash, whose parameters were read by `read_params`.
///
/// Returns the error of reading the parameters, or `PasswordInvalid` if the salt or the key is
/// missing.
#[tactic(auto, using(std::proofs::lemmas::Bool::Decides::nat_tests), unfolding(crate::specs::Accepted::is_output_len))]
pub(crate) fn parts_of_phc<'a>(
    hash: &PasswordHash,
    params: &Result<Params>,
) -> Result<StoredParts<'a>>
    requires { with_refusal params.now ≡ phc_params hash.now }
    ensures { mapped stored (with_refusal result) ≡ read_phc hash.now }
{
    let params = match params {
        Ok(params) => *params,
        Err(refused) => return Err(*refused),
    };
    let Some(salt) = &hash.salt else {
        return Err(Error::PasswordInvalid);
    };
    let Some(key) = &hash.hash else {
        return Err(Error::PasswordInvalid);
    };
    Ok(StoredParts {
        params,
        salt: Salt::Phc(*salt),
        key: Key::Phc(*key),
        key_len: key.len(),
    })
}

/// Reads the parameters of a hash, with no length. A hash without a salt or a key has parameters
/// too.
///
/// Returns the first of these errors: `Algorithm` if the algorithm is not `scrypt`, `Version` if
/// there is a version, and the errors of reading the parameters.
#[tactic(auto, unfolding(crate::specs::PhcHash::phc_params))]
pub(crate) fn read_params(hash: &PasswordHash) -> Result<Params>
    ensures { with_refusal result ≡ phc_params hash.now }
{
    if !is_scrypt(&hash.algorithm) {
        return Err(Error::Algorithm);
    }
    if hash.version.is_some() {
        return Err(Error::Version);
    }
    Params::try_from(&hash.params)
}

// Returns whether `id` is the name of scrypt.
fn is_scrypt(id: &Ident) -> bool
    ensures { IsTrue result ↔ (id.now ≡ codes "scrypt") }
{
    *id == ALG_ID
}
