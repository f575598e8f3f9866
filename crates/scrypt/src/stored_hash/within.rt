// Limits on stored hashes of either format.

ghost use Rattle.std.specs.Prelude.{◌≡◌, Err, IfErr, IfOk};
ghost use Rattle.scrypt.specs.Terms.{TooCostly, buffers_bytes, limited_refusal, mapped, reading, with_limited_refusal};
ghost use Rattle.scrypt.specs.Terms.{within, work};

use super::StoredHash;
use crate::errors::LimitedError;
use crate::{BufferLens, Limits, Params};

impl<'a> StoredHash<'a> {
    /// Checks the hash against `limits`, and returns it if verifying it stays within them. Does not
    /// allocate.
    ///
    /// Returns the first of these errors: the errors of [`StoredHash::verify`] for a hash that
    /// cannot be read, including `PasswordInvalid` if it has no salt or no key; `TooCostly` if its
    /// parameters exceed the limit on memory or the limit on work; and `KeyTooShort` if its key is
    /// shorter than the limits allow.
    pub fn within(&self, limits: &Limits) -> Result<&StoredHash<'a>, LimitedError>
        ensures value { mapped (λ hash. hash.now) (with_limited_refusal result)
            ≡ mapped (λ _. self.now) (within limits.now (reading self.now)) }
        ensures same { IfOk result (λ _. within limits.now (reading self.now) ≡ reading self.now) }
        ensures err { IfErr result (λ e. within limits.now (reading self.now) ≡ Err (limited_refusal e)) }
    {
        let parts = self.parts()?;
        if !limits.allow(&parts.params) {
            return Err(too_costly(&parts.params));
        }
        let key_len = parts.key_len;
        if key_len < limits.min_key_len {
            return Err(LimitedError::KeyTooShort { key_len });
        }
        Ok(self)
    }
}

// Returns the error for parameters that exceed a limit.
fn too_costly(params: &Params) -> LimitedError
    ensures { limited_refusal result ≡ TooCostly (buffers_bytes params.now.log_n params.now.r params.now.p)
        (work params.now.log_n params.now.r params.now.p) }
{
    LimitedError::TooCostly {
        bytes: BufferLens::of(params).bytes(),
        work: params.work(),
    }
}
