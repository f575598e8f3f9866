// Decoys, for names without a stored hash.

ghost use Rattle.std.specs.Prelude.{◌≡◌, ◌⊎◌, length, Err, IsErrOf, Ok};
ghost use Rattle.password_hash.specs.Refusal.{OutOfMemory as NoMemory, PasswordInvalid as WrongPassword};
ghost use Rattle.password_hash.specs.declared.error.Error.TheVariants.{OutOfMemory, PasswordInvalid};
ghost use Rattle.scrypt.specs.Terms.{AreCompressed, AreCounted, cost_by, decoy_reading, hash_cost, key_len_or_default};
ghost use Rattle.scrypt.specs.Terms.{stored, with_refusal};

use crate::stored_parts::{Key, Salt, StoredParts};
use crate::verifying::verify_allocating;
use crate::{Backend, CoreCount, Params};
use password_hash::Result;
use std::alloc::Global;
use std::marker::Model;

// The salt of `Decoy::new`.
static SALT: [u8; 16] = [0; 16];

/// What a password is verified against if there is no stored hash for its name: it accepts no
/// password, and verifying costs as much as with a stored hash. So the time of a login does not
/// show whether the name exists. A decoy has no text.
#[derive(Drop)]
pub struct Decoy<'a> {
    params: Params,
    salt: &'a [u8],
    // A hash with a key that no password has.
    parts: StoredParts<'a>,
}

impl<'a> Model for Decoy<'a> {
    ghost use Rattle.std.specs.Prelude.{◌≡◌, ℕ, List, Ok};
    ghost use Rattle.scrypt.specs.Accepted.{Parameters};
    ghost use Rattle.scrypt.specs.Decoy.{decoy_reading};
    ghost use Rattle.scrypt.specs.StoredParts.{stored};

    ghost Value = { Parameters × List ℕ };

    ghost view = { λ a. (a.params, a.salt.now) };

    ghost invariant = { λ a. Ok (stored a.parts) ≡ decoy_reading a.params a.salt.now };
}

impl<'a> Decoy<'a> {
    /// Returns a decoy for hashes that [`hash_text`](crate::hash_text) makes with these parameters.
    pub fn new(params: &Params) -> Decoy<'a>
        ensures params { result.0 ≡ params.now }
        ensures salt { length result.1 ≡ 16 }
    {
        Decoy::with_salt(params, &SALT)
    }

    /// Returns a decoy for hashes with these parameters, whose keys have the length in `params`, or
    /// 32 bytes if it has no length, and with salts as long as `salt`. The salt of a `$7$` hash is
    /// its letters.
    #[tactic(auto, using(std::proofs::lemmas::Bool::Decides::nat_tests), unfolding(crate::specs::Accepted::is_output_len))]
    pub fn with_salt(params: &Params, salt: &'a [u8]) -> Decoy<'a>
        ensures value { result ≡ (params.now, salt.now) }
    {
        params.expose_invariant();
        let key_len = params.key_len_or_default();
        let parts = StoredParts {
            params: params.without_len(),
            salt: Salt::Mcf(salt),
            key: Key::Decoy(key_len),
            key_len,
        };
        Decoy {
            params: *params,
            salt,
            parts,
        }
    }

    /// Verifies `password` as [`StoredHash::verify_counted`](crate::StoredHash::verify_counted) does,
    /// by the backend `W`, and rejects it. `cores` counts the `4 * N * r * p` cores of `params`, and
    /// the blocks that SHA-256 compresses: the same numbers as for a stored hash.
    ///
    /// Returns `PasswordInvalid`, or `OutOfMemory` if an allocation fails, and then the count is
    /// unchanged.
    pub fn verify<W: Backend>(
        &self,
        alloc: Global,
        password: &[u8],
        cores: &mut CoreCount,
    ) -> Result<()>
        ensures refused { (with_refusal result ≡ Err WrongPassword) ⊎ (with_refusal result ≡ Err NoMemory) }
        ensures memory { IsErrOf result OutOfMemory → cores.new ≡ cores.old }
        ensures counted { IsErrOf result PasswordInvalid → AreCounted (cost_by self.now.0) cores.old cores.new }
        ensures hashed { IsErrOf result PasswordInvalid → AreCompressed (hash_cost (length password.now)
            (length self.now.1) self.now.0.r self.now.0.p (key_len_or_default self.now.0)) cores.old cores.new }
    {
        self.params.expose_invariant();
        verify_allocating::<W>(alloc, password, &self.parts, cores)
    }

    /// Returns the parts of a hash with a key that no password has.
    pub(crate) fn parts(&self) -> &StoredParts<'a>
        ensures { Ok (stored result.now) ≡ decoy_reading self.now.0 self.now.1 }
    {
        &self.parts
    }
}
