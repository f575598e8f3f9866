//! Logins with untrusted hashes: a hash that is too costly is rejected before any work.

ghost use Rattle.std.specs.Prelude.{◌≡◌, ◌+◌, ◌*◌, ◌≤◌, [], ◌∷◌, IfOk, length, map};
ghost use Rattle.scrypt.specs.Terms.{◌and_then◌, IsLeft, lengths_cost, let_in, reading, reading_of, reading_of_hash};
ghost use Rattle.scrypt.specs.Terms.{verdict, verdict_in, with_limited_refusal, within, workspace_of};
ghost use Rattle.scrypt_examples.specs.Login.{CostsAtMost};

use password_hash::Error;
use scrypt::laws::{within_changes_nothing, work_bounds_both_counts};
use scrypt::{Buffers, CoreCount, LimitedError, Limits, Login, LoginHash, StoredHash, Target};
use std::alloc::{AllocError, Global};
use std::marker::Model;

/// Logs users in within limits, in buffers that are allocated once and fit every hash within them.
#[derive(Drop)]
pub struct BoundedLogins {
    limits: Limits,
    own: Buffers,
}

impl Model for BoundedLogins {
    ghost use Rattle.scrypt.specs.Limits.{SufficeFor};
    ghost use Rattle.scrypt.specs.declared.limits.Limits.{Limits};

    ghost Value = { Limits };

    ghost view = { λ a. a.limits };

    ghost invariant = { λ a. SufficeFor a.limits a.own.chunks.items a.own.table.items a.own.scratch.items };
}

impl BoundedLogins {
    /// Allocates the buffers for these limits.
    pub fn new(alloc: Global, limits: Limits) -> Result<BoundedLogins, AllocError>
        ensures limits { IfOk result (λ logins. logins ≡ limits) }
    {
        let own = Buffers::for_limits(alloc, &limits)?;
        Ok(BoundedLogins { limits, own })
    }

    /// Whether the password matches the stored text. Does not allocate.
    ///
    /// Returns the error of reading the text, `TooCostly` if its parameters exceed the limit on
    /// memory or on work, and `KeyTooShort` if its key is shorter than the limits allow.
    pub fn log_in(&mut self, stored: &str, password: &[u8]) -> Result<bool, LimitedError>
        ensures limits { self.new ≡ self.old }
        ensures verdict { with_limited_refusal result
            ≡ let_in (verdict password.now (within self.old (reading stored.now))) }
    {
        let hash = StoredHash::read(stored)?;
        let verified = match hash.within(&self.limits) {
            Ok(hash) => self.own.verify(hash, password, &mut CoreCount::new()),
            Err(error) => Err(error),
        };
        match verified {
            Ok(()) => Ok(true),
            Err(LimitedError::Hash(Error::PasswordInvalid)) => Ok(false),
            Err(error) => Err(error),
        }
    }

    /// The verdicts of two logins, each a stored text and a password. Does not allocate.
    ///
    /// Both keys are derived at once, which takes less time, if the hashes have the same `N` and
    /// `r` and both fit into the buffers. Neither verdict depends on the other login.
    pub fn log_in_both(
        &mut self,
        first: (&str, &[u8]),
        second: (&str, &[u8]),
    ) -> [Result<(), LimitedError>; 2]
        ensures limits { self.new ≡ self.old }
        ensures verdicts { map with_limited_refusal result
            ≡ verdict first.entry.1.now (within self.old (reading first.entry.0.now))
            ∷ verdict second.entry.1.now (within self.old (reading second.entry.0.now)) ∷ [] }
    {
        let logins = [
            login_within(first.0, first.1, &self.limits),
            login_within(second.0, second.1, &self.limits),
        ];
        let mut verdicts = [Ok(()), Ok(())];
        self.own
            .verify_logins(&logins, &mut verdicts, &mut CoreCount::new());
        verdicts
    }
}

// A login with this text, or with the error of reading it within the limits.
fn login_within<'a>(stored: &'a str, password: &'a [u8], limits: &Limits) -> Login<'a, 'a>
    ensures password { result.password.now ≡ password.now }
    ensures reading { reading_of result ≡ within limits.now (reading stored.now) }
    ensures within { within limits.now (reading_of result) ≡ reading_of result }
{
    let hash = hash_within(stored, limits);
    Login { password, hash }
}

fn hash_within<'a>(stored: &'a str, limits: &Limits) -> Result<LoginHash<'a>, LimitedError>
    ensures reading { with_limited_refusal result and_then reading_of_hash ≡ within limits.now (reading stored.now) }
    ensures within { within limits.now (with_limited_refusal result and_then reading_of_hash)
        ≡ with_limited_refusal result and_then reading_of_hash }
{
    let hash = StoredHash::read(stored)?;
    hash.within(limits)?;
    Ok(LoginHash::Stored(hash))
}

/// Whether the password matches the stored text, in buffers that are kept from login to login.
///
/// Returns the error of reading the text, `TooCostly` if its parameters exceed the limit on memory
/// or on work, `KeyTooShort` if its key is shorter than the limits allow, and `BufferTooShort` if and
/// only if a text within the limits needs longer buffers, which never happens if the buffers
/// suffice for the limits.
///
/// The limit on work bounds the number of cores. It also bounds the cores plus nine times the
/// blocks that SHA-256 compresses, not counting the blocks of a long password, salt or key.
pub fn log_in(
    stored: &str,
    password: &[u8],
    limits: &Limits,
    chunks: &mut [u8],
    table: &mut [u32],
    scratch: &mut [u32],
    cores: &mut CoreCount,
) -> Result<bool, LimitedError>
    ensures verdict { with_limited_refusal result
        ≡ let_in (verdict_in (workspace_of chunks.old table.old scratch.old) password.now
        (within limits.now (reading stored.now))) }
    ensures left { IsLeft (within limits.now (reading stored.now))
        (workspace_of chunks.old table.old scratch.old) (workspace_of chunks.new table.new scratch.new) }
    ensures bounded { cores.new.all ≤ cores.old.all + limits.now.max_work }
    ensures both_bounded { IfOk (reading stored.now) (λ s. CostsAtMost (limits.now.max_work
        + 9 * lengths_cost (length password.now) (length s.salt) (length s.key)) cores.old cores.new) }
{
    // The limit on work bounds both counts of a hash within the limits.
    within_changes_nothing();
    work_bounds_both_counts();
    let hash = StoredHash::read(stored)?;
    let hash = match hash.within(limits) {
        Ok(hash) => hash,
        Err(LimitedError::Hash(Error::PasswordInvalid)) => return Ok(false),
        Err(error) => return Err(error),
    };
    match hash.verify_with_buffers::<Target>(password, chunks, table, scratch, cores) {
        Ok(()) => Ok(true),
        Err(LimitedError::Hash(Error::PasswordInvalid)) => Ok(false),
        Err(error) => Err(error),
    }
}
