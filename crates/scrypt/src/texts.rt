// The text of a new hash.

ghost use Rattle.std.specs.Prelude.{◌≡◌, ◌^◌, ◌<◌, ◌≤◌, ℕ, IfErr, IfOk, string_bytes, Ok, false};
ghost use Rattle.password_hash.specs.declared.error.Error.TheVariants.{OutOfMemory};
ghost use Rattle.scrypt.specs.Terms.{buffers_bytes, hash_text, key_by, key_len_or_default, limits_for_new, made_phc};
ghost use Rattle.scrypt.specs.Terms.{reading, verdict, weaker, within, without_len, work};
ghost use Rattle.scrypt.specs.declared.limits.Limits.{Limits};

use crate::laws::made_hashes_are_accepted;
use crate::{Params, Scrypt};
use password_hash::phc::PasswordHash;
use password_hash::{PasswordHasher, Result};
use std::alloc::Global;

/// Returns the text to store for `password`: the PHC string of a hash with these parameters and
/// with `salt`, which the caller has generated at random.
///
/// The text accepts the password, is not weaker than `params`, and is within
/// [`Limits::for_new`](crate::Limits::for_new) of these parameters, if the bytes and the work of a
/// derivation are below `2^64` each.
///
/// Returns `OutOfMemory` if an allocation fails.
pub fn hash_text(alloc: Global, password: &[u8], salt: [u8; 16], params: &Params) -> Result<String>
    ensures made { IfOk result (λ text. string_bytes text ≡ hash_text (made_phc params.now password.now salt)) }
    ensures read { IfOk result (λ text. reading (string_bytes text) ≡ Ok (record {
      params = without_len params.now;
      salt = salt;
      key = key_by params.now password.now salt (key_len_or_default params.now);
    })) }
    ensures accepts { IfOk result (λ text. verdict password.now (reading (string_bytes text)) ≡ Ok tt) }
    ensures strong { IfOk result (λ text. weaker params.now (reading (string_bytes text)) ≡ Ok false) }
    ensures within { IfOk result (λ text. (defaults : Limits) (n : ℕ) → n ≤ key_len_or_default params.now
        → buffers_bytes params.now.log_n params.now.r params.now.p < 2 ^ 64
        → work params.now.log_n params.now.r params.now.p < 2 ^ 64
        → within (limits_for_new defaults params.now n) (reading (string_bytes text))
        ≡ reading (string_bytes text)) }
    ensures err { IfErr result (λ e. e ≡ OutOfMemory) }
{
    made_hashes_are_accepted();
    params.expose_invariant();
    let hash: PasswordHash = Scrypt::new_with_params(*params).hash_password(alloc, password, salt)?;
    Ok(hash.to_string(alloc)?)
}
