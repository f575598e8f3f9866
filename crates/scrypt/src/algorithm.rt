// scrypt as a value with parameters: it derives keys, makes hashes, verifies passwords, and finds
// hashes that are weaker than wanted.

ghost use Rattle.std.specs.Prelude.{◌≡◌, codes, length, option_map, None, IfErr, IsOk, IsTrue, OnOk};
ghost use Rattle.password_hash.specs.McfViews.{borrowed_text};
ghost use Rattle.password_hash.specs.Refusal.{OutOfMemory as NoMemory};
ghost use Rattle.scrypt.specs.Terms.{KeyIsRefused, Parameters, Refusal, call_refusal, is_named_or_none, is_output_len};
ghost use Rattle.scrypt.specs.Terms.{is_salt_len, key_by, made_mcf, made_phc, mcf_id, read_mcf, read_phc};
ghost use Rattle.scrypt.specs.Terms.{recommended_parameters, refusal, salt_refusal};
ghost use Rattle.scrypt.specs.Reading.{verdict as verdict_of, weaker as weaker_than};

use crate::mcf::reading::parts_of_mcf;
use crate::phc::reading::{parts_of_phc, read_params};
use crate::verifying::verify_allocating;
use crate::{CoreCount, DeriveError, Params, Target, mcf, phc, scrypt};
use password_hash::kdf::{self, Kdf, Pbkdf};
use password_hash::phc::PasswordHash;
use password_hash::{
    CustomizedPasswordHasher, Error, PasswordHasher, PasswordVerifier, RehashCheck, Result, Version,
};
use std::alloc::Global;
use std::marker::Model;

/// scrypt as a password hashing function, with parameters for new keys and hashes.
///
/// It derives keys and makes hashes with these parameters. Verifying never uses them: it takes the
/// parameters of the hash.
#[derive(Clone, Copy, Debug, Default, PartialEq)]
pub struct Scrypt {
    params: Params,
}

impl Model for Scrypt {
    ghost use Rattle.scrypt.specs.Accepted.{Parameters};

    ghost Value = { Parameters };

    ghost view = { λ a. a.params };

    ghost inverse = { λ c. record { params = c } };
}

impl Scrypt {
    /// Creates a value with the recommended parameters.
    pub fn new() -> Scrypt
        ensures value { result ≡ recommended_parameters }
    {
        Scrypt::default()
    }

    /// Creates a value with these parameters.
    pub fn new_with_params(params: Params) -> Scrypt
        ensures value { result ≡ params }
    {
        Scrypt { params }
    }

    /// Returns the parameters that this value hashes with.
    pub fn params(&self) -> Params
        ensures value { result ≡ self.now }
    {
        self.params
    }
}

impl From<Params> for Scrypt {
    ghost from_gives = { λ params scrypt. scrypt ≡ params };

    fn from(params: Params) -> Scrypt {
        Scrypt::new_with_params(params)
    }
}

impl Kdf for Scrypt {
    ghost derives = { λ scrypt password salt out. IsTrue (is_output_len (length out)) × (out ≡ key_by scrypt password salt (length out)) };

    ghost refuses = { λ scrypt password salt len e. KeyIsRefused len e };

    /// Derives the scrypt key of `out.len()` bytes with this value's parameters, and writes it to
    /// `out` (RFC 7914, section 6).
    ///
    /// Returns `Refused` exactly if `out` does not have 1 to 137438953440 bytes, and otherwise
    /// `OutOfMemory` if an allocation fails. On an error `out` is unchanged.
    fn derive_key(
        &self,
        alloc: Global,
        password: &[u8],
        salt: &[u8],
        out: &mut [u8],
    ) -> kdf::Result<()> {
        match scrypt(alloc, password, salt, &self.params, out) {
            Ok(()) => Ok(()),
            Err(DeriveError::InvalidOutputLen) => Err(kdf::Error::Refused),
            Err(DeriveError::OutOfMemory) => Err(kdf::Error::OutOfMemory),
        }
    }
}

impl Pbkdf for Scrypt {}

impl PasswordHasher<PasswordHash> for Scrypt {
    ghost hashes = { λ scrypt password salt hash. IsTrue (is_salt_len (length salt))
        × (hash ≡ made_phc scrypt password salt) };

    ghost refuses = { λ scrypt password salt why. why ≡ salt_refusal salt };

    /// Hashes the password with this value's parameters.
    fn hash_password_with_salt(
        &self,
        alloc: Global,
        password: &[u8],
        salt: &[u8],
    ) -> Result<PasswordHash> {
        self.hash_password_with_params(alloc, password, salt, self.params())
    }
}

impl CustomizedPasswordHasher<PasswordHash> for Scrypt {
    type Params = Params;

    ghost customizes = { λ _ password salt id version params hash. IsTrue (is_named_or_none (codes "scrypt") id)
        × (version ≡ None) × IsTrue (is_salt_len (length salt)) × (hash ≡ made_phc params password salt) };

    ghost refuses = { λ _ password salt id version params why.
        why ≡ call_refusal (codes "scrypt") id version (salt_refusal salt) };

    /// Hashes the password with `params`. The key has the length in `params`, or 32 bytes if
    /// `params` has no length.
    ///
    /// Returns the first of these errors: `Algorithm` if `alg_id` is given and not `scrypt`,
    /// `Version` if `version` is given, `SaltInvalid` if `salt` does not have 1 to 64 bytes, and
    /// `OutOfMemory` if an allocation fails.
    fn hash_password_customized(
        &self,
        alloc: Global,
        password: &[u8],
        salt: &[u8],
        alg_id: Option<&str>,
        version: Option<Version>,
        params: Params,
    ) -> Result<PasswordHash> {
        check_call(phc::ALG_ID.as_str(), alg_id, version)?;
        phc::hash::<Target>(alloc, password, salt, &params, &mut CoreCount::new())
    }
}

impl PasswordHasher<mcf::PasswordHash> for Scrypt {
    ghost hashes = { λ scrypt password salt hash. hash ≡ made_mcf scrypt password salt };

    ghost refuses = { λ scrypt password salt why. why ≡ NoMemory };

    /// Hashes the password with this value's parameters.
    fn hash_password_with_salt(
        &self,
        alloc: Global,
        password: &[u8],
        salt: &[u8],
    ) -> Result<mcf::PasswordHash> {
        self.hash_password_with_params(alloc, password, salt, self.params())
    }
}

impl CustomizedPasswordHasher<mcf::PasswordHash> for Scrypt {
    type Params = Params;

    ghost customizes = { λ _ password salt id version params hash. IsTrue (is_named_or_none mcf_id id)
        × (version ≡ None) × (hash ≡ made_mcf params password salt) };

    ghost refuses = { λ _ password salt id version params why. why ≡ call_refusal mcf_id id version NoMemory };

    /// Hashes the password with `params`. The key has the length in `params`, or 32 bytes if
    /// `params` has no length. The salt of the derivation is the crypt Base64 of `salt`, as in the
    /// text.
    ///
    /// Allocates the whole text first, then the three buffers of the derivation, and all of them
    /// before the first core.
    ///
    /// Returns the first of these errors: `Algorithm` if `alg_id` is given and not `7`, `Version`
    /// if `version` is given, and `OutOfMemory` if an allocation fails.
    fn hash_password_customized(
        &self,
        alloc: Global,
        password: &[u8],
        salt: &[u8],
        alg_id: Option<&str>,
        version: Option<Version>,
        params: Params,
    ) -> Result<mcf::PasswordHash> {
        check_call("7", alg_id, version)?;
        mcf::hash::<Target>(alloc, password, salt, &params, &mut CoreCount::new())
    }
}

impl PasswordVerifier<PasswordHash> for Scrypt {
    ghost verdict = { λ password hash. verdict_of password (read_phc hash) };

    ghost needs_memory = { λ hash. IsOk (read_phc hash) };

    /// Verifies the password with the parameters, the salt and the length of the key of the hash,
    /// and never with this value's parameters. Every byte of the two keys is compared, also after a
    /// difference.
    ///
    /// Returns the first of these errors: `Algorithm` if the algorithm is not `scrypt`, `Version`
    /// if there is a version, the errors of reading the parameters, `PasswordInvalid` if the salt
    /// or the key is missing, `OutOfMemory` if an allocation fails, and `PasswordInvalid` if the
    /// keys differ.
    fn verify_password(&self, alloc: Global, password: &[u8], hash: &PasswordHash) -> Result<()> {
        let cores = &mut CoreCount::new();
        match parts_of_phc(hash, &read_params(hash)) {
            Ok(parts) => verify_allocating::<Target>(alloc, password, &parts, cores),
            Err(unread) => Err(unread),
        }
    }
}

impl<'a> PasswordVerifier<mcf::PasswordHashRef<'a>> for Scrypt {
    ghost verdict = { λ password hash. verdict_of password (read_mcf (borrowed_text hash)) };

    ghost needs_memory = { λ hash. IsOk (read_mcf (borrowed_text hash)) };

    /// Verifies the password with the parameters, the salt and the length of the key of the hash,
    /// and never with this value's parameters. The salt is passed to the derivation as the bytes of
    /// the text, not decoded, and the key is compared with its letters in the text.
    ///
    /// Returns the first of these errors: `Algorithm` if the id is not `7`; `EncodingInvalid` if
    /// the first field is missing; the errors of `decode_params_and_salt` for the first field;
    /// `EncodingInvalid` if the second field is missing, if it is not crypt Base64, or if a third
    /// field follows; `OutputSize` if the key is empty or has more than 137438953440 bytes;
    /// `OutOfMemory` if an allocation fails; and `PasswordInvalid` if the keys differ.
    fn verify_password(
        &self,
        alloc: Global,
        password: &[u8],
        hash: &mcf::PasswordHashRef<'a>,
    ) -> Result<()> {
        let cores = &mut CoreCount::new();
        match parts_of_mcf(hash) {
            Ok(found) => verify_allocating::<Target>(alloc, password, &found, cores),
            Err(refused) => Err(refused),
        }
    }
}

impl PasswordVerifier<mcf::PasswordHash> for Scrypt {
    ghost verdict = { λ password hash. verdict_of password (read_mcf hash) };

    ghost needs_memory = { λ hash. IsOk (read_mcf hash) };

    /// Verifies the password as for the borrowed text.
    fn verify_password(
        &self,
        alloc: Global,
        password: &[u8],
        hash: &mcf::PasswordHash,
    ) -> Result<()> {
        self.verify_password(alloc, password, &hash.as_password_hash_ref())
    }
}

impl RehashCheck<PasswordHash> for Scrypt {
    ghost weaker = { λ scrypt hash. weaker_than scrypt (read_phc hash) };

    /// Returns whether `log_n`, `r`, `p` or the length of the key is below this value's parameters,
    /// which ask for a key of 32 bytes if they have no length. One of the four suffices.
    ///
    /// Returns the same errors as verifying does before it allocates, in the same order.
    fn needs_rehash(&self, hash: &PasswordHash) -> Result<bool> {
        match parts_of_phc(hash, &read_params(hash)) {
            Ok(parts) => Ok(parts.params.is_below(&self.params(), parts.key_len)),
            Err(error) => Err(error),
        }
    }
}

impl<'a> RehashCheck<mcf::PasswordHashRef<'a>> for Scrypt {
    ghost weaker = { λ scrypt hash. weaker_than scrypt (read_mcf (borrowed_text hash)) };

    /// Returns whether the hash is weaker than this value's parameters ask for, as for a PHC hash.
    ///
    /// Returns the same errors as verifying does before it allocates, in the same order.
    fn needs_rehash(&self, hash: &mcf::PasswordHashRef<'a>) -> Result<bool> {
        match parts_of_mcf(hash) {
            Ok(stored) => Ok(stored.params.is_below(&self.params(), stored.key_len)),
            Err(error) => Err(error),
        }
    }
}

impl RehashCheck<mcf::PasswordHash> for Scrypt {
    ghost weaker = { λ scrypt hash. weaker_than scrypt (read_mcf hash) };

    /// Returns the same as for the borrowed text.
    fn needs_rehash(&self, hash: &mcf::PasswordHash) -> Result<bool> {
        self.needs_rehash(&hash.as_password_hash_ref())
    }
}

// Checks the algorithm and version arguments.
//
// Returns `Algorithm` if `alg_id` is given and not `name`, and otherwise `Version` if `version` is
// given.
fn check_call(name: &str, alg_id: Option<&str>, version: Option<Version>) -> Result<()>
    ensures named { OnOk result (IsTrue (is_named_or_none name.now (option_map (λ s. s.now) alg_id.entry))) }
    ensures none { OnOk result (version ≡ None) }
    ensures err { IfErr result (λ e. (why : Refusal)
        → refusal e ≡ call_refusal name.now (option_map (λ s. s.now) alg_id.entry) version why) }
{
    if alg_id.unwrap_or(name) != name {
        return Err(Error::Algorithm);
    }
    if version.is_some() {
        return Err(Error::Version);
    }
    Ok(())
}
