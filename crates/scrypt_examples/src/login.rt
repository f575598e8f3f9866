//! Logins: enrolls users, logs them in with their passwords, and replaces hashes that have become
//! weak.

ghost use Rattle.std.specs.Prelude.{◌≡◌, ◌⊎◌, ◌↔◌, None, Ok, Err, IsOk, IsSome, false, true, length, IfErr, IfOk, IfSome, OnOk, string_bytes, IsTrue};
ghost use Rattle.scrypt.specs.Terms.{AreCompressed, AreCounted, are_accepted, cost_by, hash_cost, key_len_or_default};
ghost use Rattle.scrypt.specs.Terms.{let_in, made_mcf, reading, refusal, verdict, weaker};
ghost use Rattle.password_hash.specs.declared.error.Error.TheVariants.{OutOfMemory};
ghost use Rattle.scrypt_examples.specs.Login.{IsEnrolled, lets_in, new_text};

use password_hash::{Error, PasswordHasher, Result, mcf};
use scrypt::laws::{made_hashes_are_accepted, parameters_are_accepted};
use scrypt::{CoreCount, Decoy, InvalidParams, Params, Scrypt, StoredHash, Target, hash_text};
use std::alloc::Global;

/// The outcome of a login.
#[derive(Drop)]
pub enum LoginOutcome {
    /// The stored text does not accept the password.
    Refused,
    /// The stored text accepts the password.
    In,
    /// The stored text accepts the password and is weak: store this text in its place.
    InWithNewText(String),
}

/// Enrolls users and logs them in, with the parameters that are wanted now.
#[derive(Clone, Copy)]
pub struct LoginPolicy {
    wanted: Params,
}

impl LoginPolicy {
    /// Sets the wanted parameters.
    ///
    /// Returns `InvalidParams` if they are not accepted.
    pub fn new(log_n: u8, r: u32, p: u32) -> std::result::Result<LoginPolicy, InvalidParams>
        ensures accepted { IsOk result ↔ IsTrue (are_accepted log_n r p) }
        ensures value { IfOk result (λ logins.
            logins.wanted ≡ record { log_n = log_n; r = r; p = p; output_len = None }) }
    {
        let wanted = Params::new(log_n, r, p)?;
        Ok(LoginPolicy { wanted })
    }

    /// The text to store for a new user. The salt is drawn at random.
    ///
    /// Returns `OutOfMemory` if an allocation fails.
    pub fn enroll(&self, alloc: Global, password: &[u8], salt: [u8; 16]) -> Result<String>
        ensures enrolled { IfOk result (λ text.
            IsEnrolled self.now.wanted password.now salt (string_bytes text)) }
        ensures err { IfErr result (λ e. e ≡ OutOfMemory) }
    {
        hash_text(alloc, password, salt, &self.wanted)
    }

    /// The `$7$` hash to store for a new user of a system that reads crypt(3) texts. The salt is
    /// drawn at random.
    ///
    /// Returns `OutOfMemory` if an allocation fails.
    pub fn enroll_mcf(&self, alloc: Global, password: &[u8], salt: [u8; 16]) -> Result<String>
        ensures made { IfOk result (λ text. string_bytes text ≡ made_mcf self.now.wanted password.now salt) }
        ensures accepts { IfOk result (λ text. verdict password.now (reading (string_bytes text)) ≡ Ok tt) }
        ensures strong { IfOk result (λ text. weaker self.now.wanted (reading (string_bytes text)) ≡ Ok false) }
        ensures err { IfErr result (λ e. e ≡ OutOfMemory) }
    {
        made_hashes_are_accepted();
        parameters_are_accepted(&self.wanted);
        let hasher = Scrypt::new_with_params(self.wanted);
        let hash: mcf::PasswordHash = hasher.hash_password(alloc, password, salt)?;
        Ok(hash.into_string())
    }

    /// Logs a user in with the stored text. The salt is drawn at random, for a new text.
    ///
    /// Returns the error of reading the text, and `OutOfMemory` if an allocation fails.
    pub fn log_in(
        &self,
        alloc: Global,
        stored: &str,
        password: &[u8],
        salt: [u8; 16],
    ) -> Result<LoginOutcome>
        ensures accepted { IfOk result (λ login.
            let_in (verdict password.now (reading stored.now)) ≡ Ok (lets_in login)) }
        ensures weaker { IfOk result (λ login. IsSome (new_text login)
            ↔ ((verdict password.now (reading stored.now) ≡ Ok tt)
            × (weaker self.now.wanted (reading stored.now) ≡ Ok true))) }
        ensures enrolled { IfOk result (λ login.
            IfSome (new_text login) (IsEnrolled self.now.wanted password.now salt)) }
        ensures err { IfErr result (λ e. (IsOk (reading stored.now) × (e ≡ OutOfMemory))
            ⊎ (let_in (verdict password.now (reading stored.now)) ≡ Err (refusal e))) }
    {
        let hash = StoredHash::read(stored)?;
        if !hash.accepts(alloc, password)? {
            return Ok(LoginOutcome::Refused);
        }
        if !hash.needs_rehash(&self.wanted)? {
            return Ok(LoginOutcome::In);
        }
        Ok(LoginOutcome::InWithNewText(self.enroll(alloc, password, salt)?))
    }

    /// Refuses a login with a name that does not exist, and counts the work: as much as for a wrong
    /// password of this length, so that the time does not show which names exist.
    ///
    /// Returns `OutOfMemory` if an allocation fails.
    pub fn log_in_unknown(
        &self,
        alloc: Global,
        password: &[u8],
        cores: &mut CoreCount,
    ) -> Result<LoginOutcome>
        ensures refused { IfOk result (λ login. lets_in login ≡ false) }
        ensures counted { OnOk result (AreCounted (cost_by self.now.wanted) cores.old cores.new) }
        ensures hashed { OnOk result (AreCompressed (hash_cost (length password.now) 16
            self.now.wanted.r self.now.wanted.p (key_len_or_default self.now.wanted)) cores.old cores.new) }
        ensures err { IfErr result (λ e. e ≡ OutOfMemory) }
    {
        match Decoy::new(&self.wanted).verify::<Target>(alloc, password, cores) {
            Err(Error::PasswordInvalid) => Ok(LoginOutcome::Refused),
            _ => Err(Error::OutOfMemory),
        }
    }
}
