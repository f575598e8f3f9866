//! The traits of making and verifying password hashes.
ghost use Rattle.std.specs.Prelude.{◌≡◌, ◌⊎◌, ◌↔◌, List, ℕ, Bool, Option, None, Result, Err, IfOk, IfErr, IsErrOf, IsTrue, OnOk, ⊤};
ghost use Rattle.std.specs.Option.{option_map};
ghost use Rattle.password_hash.specs.Refusal.{Refusal, refusal, with_refusal, OutOfMemory, PasswordInvalid};
ghost use Rattle.password_hash.specs.Verifying.{Accepts, IsWeaker, Refuses, RefusesCheck};

use crate::{Result, Version};
use std::alloc::Global;

/// Makes password hashes of type `H`.
pub trait PasswordHasher<H> {
    // The hash of a password and a salt.
    ghost hashes: { Self → List ℕ → List ℕ → H → Type 0 };

    // The errors of hashing a password with a salt.
    ghost refuses: { Self → List ℕ → List ℕ → Refusal → Type 0 };

    /// Hashes `password` with `salt`.
    fn hash_password_with_salt(&self, alloc: Global, password: &[u8], salt: &[u8]) -> Result<H>
        ensures ok { IfOk result (λ h. hashes self.now password.now salt.now h) }
        ensures err { IfErr result (λ e. refuses self.now password.now salt.now (refusal e)) };

    /// Hashes `password` with a salt of 16 bytes, which the caller has generated at random.
    fn hash_password(&self, alloc: Global, password: &[u8], drawn: [u8; 16]) -> Result<H>
        ensures ok { IfOk result (λ h. hashes self.now password.now drawn h) }
        ensures err { IfErr result (λ e. refuses self.now password.now drawn (refusal e)) }
    {
        self.hash_password_with_salt(alloc, password, &drawn)
    }
}

/// Makes password hashes of type `H` with an algorithm, a version and parameters that the caller
/// chooses.
pub trait CustomizedPasswordHasher<H> {
    /// The parameters of the algorithm.
    type Params;

    // The hash of a password, a salt, an algorithm, a version and parameters.
    ghost customizes: { Self → List ℕ → List ℕ → Option (List ℕ) → Option ℕ → Self.Params → H → Type 0 };

    // The errors of hashing with these arguments.
    ghost refuses: { Self → List ℕ → List ℕ → Option (List ℕ) → Option ℕ → Self.Params → Refusal → Type 0 };

    /// Hashes `password` with `salt` and `params`, by the algorithm `alg_id` in the version
    /// `version`. `None` means the default algorithm or version.
    fn hash_password_customized(
        &self,
        alloc: Global,
        password: &[u8],
        salt: &[u8],
        alg_id: Option<&str>,
        version: Option<Version>,
        params: Self::Params,
    ) -> Result<H>
        ensures ok { IfOk result (λ h. customizes self.now password.now salt.now
            (option_map (λ s. s.now) alg_id.entry) version params h) }
        ensures err { IfErr result (λ e. refuses self.now password.now salt.now
            (option_map (λ s. s.now) alg_id.entry) version params (refusal e)) };

    /// Hashes `password` with `salt` and `params`, by the default algorithm and version.
    fn hash_password_with_params(
        &self,
        alloc: Global,
        password: &[u8],
        salt: &[u8],
        params: Self::Params,
    ) -> Result<H>
        ensures ok { IfOk result (λ h. customizes self.now password.now salt.now None None params h) }
        ensures err { IfErr result (λ e. refuses self.now password.now salt.now None None params (refusal e)) }
    {
        self.hash_password_customized(alloc, password, salt, None, None, params)
    }
}

/// Verifies passwords against hashes of type `H`.
pub trait PasswordVerifier<H> {
    // The verdict of a password and a hash, if no allocation fails.
    ghost verdict: { List ℕ → H → Result ⊤ Refusal };

    // Whether verifying the hash needs memory.
    ghost needs_memory: { H → Type 0 };

    /// Verifies `password` against `hash`. Returns the verdict, or `OutOfMemory`.
    fn verify_password(&self, alloc: Global, password: &[u8], hash: &H) -> Result<()>
        ensures verdict { (with_refusal result ≡ verdict password.now hash.now)
            ⊎ (needs_memory hash.now × (with_refusal result ≡ Err OutOfMemory)) }
        ensures ok { OnOk result (Accepts verdict password.now hash.now) }
        ensures wrong { IsErrOf (with_refusal result) PasswordInvalid → ¬ Accepts verdict password.now hash.now }
        ensures err { IfErr result (λ e. Refuses verdict needs_memory password.now hash.now (refusal e)) };
}

/// Checks whether hashes of type `H` are weaker than the parameters of this value. A login service
/// can then replace a weak hash while it has the password.
pub trait RehashCheck<H> {
    // Whether the hash is weaker than wanted, or the error of a hash that cannot be read.
    ghost weaker: { Self → H → Result Bool Refusal };

    /// Returns whether `hash` is weaker than wanted. Does not allocate.
    fn needs_rehash(&self, hash: &H) -> Result<bool>
        ensures weaker { with_refusal result ≡ weaker self.now hash.now }
        ensures ok { IfOk result (λ is. IsTrue is ↔ IsWeaker weaker self.now hash.now) }
        ensures err { IfErr result (λ e. RefusesCheck weaker self.now hash.now (refusal e)) };
}
