//! Accounts that no history of calls locks their users out of.

ghost use Rattle.std.specs.Prelude.{◌≡◌, ℕ, Bool, true, false, List, IfErr, IfOk, IfSome, None, Ok, OnErr, OnOk, is_ok, is_some};
ghost use Rattle.password_hash.specs.declared.error.Error.TheVariants.{OutOfMemory};
ghost use Rattle.scrypt.specs.Terms.{reading, weaker, within};
ghost use Rattle.scrypt_examples.specs.Account.{Call, ChangePassword, IsOpen, IsRenewed, LogIn, Run, SetLimits, SetPolicy, Step, Stores, admits, current_password, lets_in};

use crate::hash::verify;
use password_hash::{Error, Result};
use scrypt::laws::{made_hashes_are_accepted, within_changes_nothing};
use scrypt::{LimitedError, Limits, Params, StoredHash, hash_text};
use std::alloc::Global;
use std::marker::Model;

/// The stored hash of a user's password, the policy, which is the parameters of new hashes, and the
/// limits on verifying.
///
/// The limits always admit the policy and the stored hash. The salts are drawn at random.
#[derive(Drop)]
pub struct Account {
    text: String,
    policy: Params,
    limits: Limits,
}

impl Model for Account {
    ghost use Rattle.std.specs.Prelude.{◌≡◌, IsOk, IsTrue, None, string_bytes};
    ghost use Rattle.scrypt.specs.Terms.{reading, within};
    ghost use Rattle.scrypt_examples.specs.Account.{Stores, admits};

    ghost Value = { Stores };

    ghost view = { λ a. record { text = string_bytes a.text; policy = a.policy; limits = a.limits } };

    ghost invariant = { λ a. IsOk (within a.limits (reading (string_bytes a.text)))
        × IsTrue (admits a.limits a.policy) × (a.policy.output_len ≡ None) };
}

impl Account {
    /// Creates an account with this password, or returns `None` if the limits do not admit the
    /// policy.
    ///
    /// Returns `OutOfMemory` if an allocation fails.
    pub fn sign_up(
        alloc: Global,
        policy: Params,
        limits: Limits,
        password: &[u8],
        salt: [u8; 16],
    ) -> Result<Option<Account>>
        requires no_len { policy.output_len ≡ None }
        ensures admitted { IfOk result (λ account. is_some account ≡ admits limits policy) }
        ensures stays { IfOk result (λ account. IfSome account (λ account.
            (account.policy ≡ policy) × (account.limits ≡ limits) × IsOpen password.now account)) }
        ensures err { IfErr result (λ e. e ≡ OutOfMemory) }
    {
        made_hashes_are_accepted();
        if !are_admitted(&limits, &policy) {
            return Ok(None);
        }
        let text = hash_text(alloc, password, salt, &policy)?;
        Ok(Some(Account {
            text,
            policy,
            limits,
        }))
    }

    /// Returns whether the password is right. If the stored hash is weaker than the policy, it is
    /// replaced after a right password.
    ///
    /// Returns `OutOfMemory` if an allocation fails, and then changes nothing.
    pub fn log_in(&mut self, alloc: Global, password: &[u8], salt: [u8; 16]) -> Result<bool>
        ensures step { IfOk result (λ answer. Step self.old (LogIn password.now salt) answer self.new) }
        ensures err { IfErr result (λ e. e ≡ OutOfMemory) }
        ensures unchanged { OnErr result (self.new ≡ self.old) }
    {
        if !self.accepts(alloc, password)? {
            return Ok(false);
        }
        if self.is_weak() {
            self.renew(alloc, password, salt)?;
        }
        Ok(true)
    }

    /// Replaces the password, and returns whether the old password was right. A wrong one changes
    /// nothing.
    ///
    /// Returns `OutOfMemory` if an allocation fails, and then changes nothing.
    pub fn change_password(
        &mut self,
        alloc: Global,
        password: &[u8],
        new_password: &[u8],
        salt: [u8; 16],
    ) -> Result<bool>
        ensures step { IfOk result (λ answer.
            Step self.old (ChangePassword password.now new_password.now salt) answer self.new) }
        ensures err { IfErr result (λ e. e ≡ OutOfMemory) }
        ensures unchanged { OnErr result (self.new ≡ self.old) }
    {
        if !self.accepts(alloc, password)? {
            return Ok(false);
        }
        self.renew(alloc, new_password, salt)?;
        Ok(true)
    }

    /// Sets the policy, and returns whether the limits admit it. If not, nothing changes: raise the
    /// limits first.
    pub fn set_policy(&mut self, policy: Params) -> bool
        requires no_len { policy.output_len ≡ None }
        ensures step { Step self.old (SetPolicy policy) result self.new }
    {
        if !are_admitted(&self.limits, &policy) {
            return false;
        }
        self.policy = policy;
        true
    }

    /// Sets the limits, and returns whether they admit the policy and the stored hash. If not,
    /// nothing changes: set a policy that they admit first, and let the user change the password.
    pub fn set_limits(&mut self, limits: Limits) -> bool
        ensures step { Step self.old (SetLimits limits) result self.new }
    {
        if !are_admitted(&limits, &self.policy) || !is_within(&self.text, &limits) {
            return false;
        }
        self.limits = limits;
        true
    }

    // Whether the stored hash accepts the password.
    fn accepts(&self, alloc: Global, password: &[u8]) -> Result<bool>
        ensures right { IfOk result (λ right. right ≡ lets_in self.now password.now) }
        ensures err { IfErr result (λ e. e ≡ OutOfMemory) }
    {
        match verify(alloc, &self.text, &self.limits, password) {
            Ok(()) => Ok(true),
            Err(LimitedError::Hash(Error::PasswordInvalid)) => Ok(false),
            Err(_) => Err(Error::OutOfMemory),
        }
    }

    // Whether the stored hash is weaker than the policy.
    fn is_weak(&self) -> bool
        ensures { weaker self.now.policy (reading self.now.text) ≡ Ok result }
    {
        match StoredHash::read(&self.text) {
            Ok(hash) => hash.needs_rehash(&self.policy).is_ok_and(|weak| weak),
            Err(_) => false,
        }
    }

    // Replaces the stored hash by a new one of this password.
    fn renew(&mut self, alloc: Global, password: &[u8], salt: [u8; 16]) -> Result<()>
        ensures ok { OnOk result (IsRenewed self.old password.now salt self.new) }
        ensures err { IfErr result (λ e. e ≡ OutOfMemory) }
        ensures unchanged { OnErr result (self.new ≡ self.old) }
    {
        made_hashes_are_accepted();
        self.text = hash_text(alloc, password, salt, &self.policy)?;
        Ok(())
    }
}

// Whether new hashes of the policy are within the limits.
fn are_admitted(limits: &Limits, policy: &Params) -> bool
    requires { policy.now.output_len ≡ None }
    ensures { result ≡ admits limits.now policy.now }
{
    limits.allow(policy) && limits.min_key_len <= Params::RECOMMENDED_LEN
}

// Whether a stored text is within the limits.
fn is_within(text: &str, limits: &Limits) -> bool
    ensures { result ≡ is_ok (within limits.now (reading text.now)) }
{
    match StoredHash::read(text) {
        Ok(hash) => hash.within(limits).is_ok(),
        Err(_) => false,
    }
}

/// No history locks a user out: after any calls the current password, which is the last one that
/// was set or let in, is accepted within the current limits (`stays`), so no log-in with it is
/// refused (`answered`), and a log-in leaves a hash that is not weaker than the policy (`strong`).
pub fn nobody_is_locked_out()
    ensures stays { (start end : Stores) (password : List ℕ) (history : List (Call × Bool)) → IsOpen password start
        → Run start history end → IsOpen (current_password password history) end }
    ensures answered { (old new : Stores) (password salt : List ℕ) (answer : Bool) → IsOpen password old
        → Step old (LogIn password salt) answer new → answer ≡ true }
    ensures strong { (old new : Stores) (password salt : List ℕ) → Step old (LogIn password salt) true new
        → weaker new.policy (reading new.text) ≡ Ok false }
{
    made_hashes_are_accepted();
    within_changes_nothing();
}
