//! The keys of an encrypted file, from one password.

ghost use Rattle.std.specs.Prelude.{◌≡◌, ◌↔◌, ◌⊎◌, ◌++◌, ℕ, take, drop, false, None, IfErr, IfOk, IfSome, IsErrOf, IsTrue};
ghost use Rattle.scrypt_kernel.specs.Hmac.{hmac_sha256};
ghost use Rattle.scrypt.specs.Terms.{are_accepted, derived_key, key_by};
ghost use Rattle.scrypt.specs.declared.errors.DeriveError.TheVariants.{OutOfMemory};
ghost use Rattle.password_hash.specs.declared.error.Error.TheVariants.{OutOfMemory as NoMemory, ParamsInvalid};
ghost use Rattle.scrypt_examples.specs.KeyFile.{age_label};

use password_hash::Error;
use scrypt::hmac::hmac_sha256;
use scrypt::laws::{conditions_are_inequalities, shorter_key_is_prefix};
use scrypt::{BufferLens, Buffers, DeriveError, Params, scrypt, wipe};
use std::alloc::{AllocError, Global};

/// The header of an encrypted file, which is not encrypted.
#[derive(Clone, Copy, Debug, PartialEq)]
pub struct Header {
    /// The parameters that its keys are derived with.
    pub params: Params,
    /// The salt, drawn at random for this file.
    pub salt: [u8; 32],
}

/// The keys of a file.
#[derive(Clone, Copy)]
pub struct Subkeys {
    /// The key that the file is encrypted with.
    pub encryption: [u8; 32],
    /// The key that the file is authenticated with.
    pub authentication: [u8; 32],
}

impl Header {
    /// The keys of the file with this header: the two halves of one derived key of 64 bytes, as in
    /// the files of Tarsnap's `scrypt enc`. The first is also the derived key of 32 bytes.
    ///
    /// Returns `OutOfMemory` if an allocation fails.
    pub fn subkeys(&self, alloc: Global, password: &[u8]) -> Result<Subkeys, DeriveError>
        ensures encryption { IfOk result (λ keys.
            keys.encryption ≡ take 32 (key_by self.now.params password.now self.now.salt 64)) }
        ensures authentication { IfOk result (λ keys.
            keys.authentication ≡ drop 32 (key_by self.now.params password.now self.now.salt 64)) }
        ensures alone { IfOk result (λ keys.
            keys.encryption ≡ key_by self.now.params password.now self.now.salt 32) }
        ensures err { IfErr result (λ e. e ≡ OutOfMemory) }
    {
        shorter_key_is_prefix();
        conditions_are_inequalities();
        let mut key = [0u8; 64];
        scrypt(alloc, password, &self.salt, &self.params, &mut key)?;
        Ok(Subkeys::halves_of(&key))
    }

    /// The same keys, derived in steps, so that the user sees the progress and can cancel: after
    /// each step `go_on` is called with the number of cores that are done, of `params.cores()` in
    /// all.
    ///
    /// Returns `None` if `go_on` returned `false`, and `AllocError` if an allocation fails.
    pub fn subkeys_in_steps<F: FnMut(u128) -> bool>(
        &self,
        alloc: Global,
        password: &[u8],
        go_on: F,
    ) -> Result<Option<Subkeys>, AllocError>
        requires callable { F.IsAlwaysCallable go_on }
        ensures encryption { IfOk result (λ keys. IfSome keys (λ keys.
            keys.encryption ≡ take 32 (key_by self.now.params password.now self.now.salt 64))) }
        ensures authentication { IfOk result (λ keys. IfSome keys (λ keys.
            keys.authentication ≡ drop 32 (key_by self.now.params password.now self.now.salt 64))) }
        ensures cancelled { IfOk result (λ keys. keys ≡ None
            → (state : F) × (done : ℕ) × (left : F) × F.step state done false left) }
    {
        conditions_are_inequalities();
        let mut own = Buffers::allocate(alloc, &BufferLens::of(&self.params))?;
        let mut key = [0u8; 64];
        let (salt, params) = (&self.salt, &self.params);
        // a step of 1000 block mixes takes about a millisecond
        let derived = own.derive_key_in_steps(password, salt, params, 1000, go_on, &mut key);
        wipe(&mut own.chunks, &mut own.table, &mut own.scratch);
        match derived {
            Ok(()) => Ok(Some(Subkeys::halves_of(&key))),
            Err(_) => Ok(None),
        }
    }
}

impl Subkeys {
    fn halves_of(key: &[u8; 64]) -> Subkeys
        ensures encryption { result.encryption ≡ take 32 key.now }
        ensures authentication { result.authentication ≡ drop 32 key.now }
    {
        let (encryption, authentication) = key.split_at(32);
        let mut keys = Subkeys {
            encryption: [0; 32],
            authentication: [0; 32],
        };
        keys.encryption.copy_from_slice(encryption);
        keys.authentication.copy_from_slice(authentication);
        keys
    }

    /// The authentication tag: HMAC-SHA-256 of the header and the rest of the file with the second
    /// key. It shows a reader of the file that both were written with the password.
    pub fn tag(&self, header: &[u8], rest: &[u8]) -> [u8; 32]
        ensures value { result ≡ hmac_sha256 self.now.authentication (header.now ++ rest.now) }
    {
        hmac_sha256(&self.authentication, header, rest)
    }
}

/// The label before the salt of an age file, in the salt of its derivation.
const AGE_LABEL: &[u8; 28] = b"age-encryption.org/v1/scrypt";

/// The key that wraps the file key of an age file with a passphrase. The file contains `log_n` and
/// the salt; `r` is 8 and `p` is 1. Check `log_n` against a limit before this call.
///
/// Returns `ParamsInvalid` if such parameters are not accepted, and `OutOfMemory` if an allocation
/// fails.
pub fn age_wrap_key(
    alloc: Global,
    password: &[u8],
    log_n: u8,
    salt: [u8; 16],
) -> password_hash::Result<[u8; 32]>
    ensures value { IfOk result (λ key. key ≡ derived_key password.now (age_label ++ salt) log_n 8 1 32) }
    ensures params { IsErrOf result ParamsInvalid ↔ ¬ IsTrue (are_accepted log_n 8 1) }
    ensures err { IfErr result (λ e. (e ≡ ParamsInvalid) ⊎ (e ≡ NoMemory)) }
{
    let Ok(params) = Params::new(log_n, 8, 1) else {
        return Err(Error::ParamsInvalid);
    };
    let mut labelled = [0u8; 44];
    let (label, rest) = labelled.split_at_mut(28);
    label.copy_from_slice(AGE_LABEL);
    rest.copy_from_slice(&salt);

    let mut key = [0u8; 32];
    match scrypt(alloc, password, &labelled, &params, &mut key) {
        Ok(()) => Ok(key),
        Err(_) => Err(Error::OutOfMemory),
    }
}
