// The limits on the cost of a stored hash, and on the length of its key.

ghost use Rattle.std.specs.Prelude.{◌≡◌};
ghost use Rattle.scrypt_commands.specs.{limits_of, with_number};

use password_hash::decimal::read_usize;
use scrypt::{Limits, Params};

/// Limits on a stored hash.
#[derive(Clone, Copy)]
pub struct LimitOptions {
    /// the limits on memory and on work, and the default minimum length of its key
    pub limits: Limits,
    /// the minimum length of its key in bytes, if an option sets it
    pub min_key_len: Option<usize>,
}

impl LimitOptions {
    /// The default limits.
    pub const DEFAULT: LimitOptions = LimitOptions {
        limits: Limits::DEFAULT,
        min_key_len: None,
    };

    /// Returns the options with the option of this name added, or `None` if there is no such
    /// option, or the value is not a number.
    #[tactic(auto, using(crate::proofs::CommandFacts::other), unfolding(crate::specs::Options::with_number))]
    pub fn with_number(self, name: &str, value: &str) -> Option<LimitOptions>
        ensures value { result ≡ with_number self name.now value.now }
    {
        let number = read_usize(value)?;
        let mut options = self;
        match name {
            "--max-mem" => options.limits.max_mem = number,
            "--max-work" => options.limits.max_work = number as u64,
            "--min-key-len" => options.min_key_len = Some(number),
            _ => return None,
        }
        Some(options)
    }

    /// Returns the limits on a hash. The minimum key length is the default unless an option sets
    /// it. If a new hash is wanted in place of the old one, the limits are raised where necessary
    /// to admit the new one, and a short key, which is weaker than wanted, is allowed unless an
    /// option sets a minimum.
    pub fn limits(self, wanted: Option<Params>) -> Limits
        ensures value { result ≡ limits_of self wanted }
    {
        match wanted {
            Some(params) => Limits {
                min_key_len: self.min_key_len.unwrap_or(0),
                ..self.limits.admitting(&params)
            },
            None => Limits {
                min_key_len: self.min_key_len.unwrap_or(self.limits.min_key_len),
                ..self.limits
            },
        }
    }
}
