// Limits on the cost of verifying a stored hash.

ghost use Rattle.std.specs.Prelude.{◌≡◌};
ghost use Rattle.scrypt.specs.Limits.{admitting, are_within, limits_for_new};

use crate::size::Size;
use crate::{BufferLens, Params};

/// Limits on the memory and the work of verifying a stored hash, and on the length of its key. An
/// untrusted hash sets its own cost, which may be days of work: without limits this allows a denial
/// of service.
#[derive(Clone, Copy, Debug, PartialEq, Eq)]
pub struct Limits {
    /// The maximum size of the three buffers in bytes ([`BufferLens::bytes`]).
    pub max_mem: Size,
    /// The maximum work ([`Params::work`]): the cores of a derivation, and nine for each block that
    /// SHA-256 compresses, except for the blocks of a long password, salt or key.
    pub max_work: u64,
    /// The minimum length of the key in bytes. A key of `n` bytes accepts about one wrong password
    /// in `256^n`.
    pub min_key_len: usize,
}

const _: () = prove!(Limits::DEFAULT.max_mem == 269484032 && Limits::DEFAULT.max_work == 16781312);

const _: () = prove!(Limits::DEFAULT.min_key_len == 16);

impl Limits {
    /// A table of 256 MiB and the two smaller buffers, four times the work of the recommended
    /// parameters, and a key of 16 bytes.
    pub const DEFAULT: Limits = Limits {
        max_mem: 257 << 20,
        max_work: 4 * 4 * ((1 << 17) + 32) * 8,
        min_key_len: 16,
    };

    /// Returns the default limits, raised (for the key, lowered) to admit hashes with these
    /// parameters and keys of `key_len` bytes: the limits of a hasher that makes such hashes.
    pub fn for_new(params: &Params, key_len: usize) -> Limits
        ensures value { result ≡ limits_for_new Limits.DEFAULT params.now key_len }
    {
        let admitting = Limits::DEFAULT.admitting(params);
        Limits {
            min_key_len: admitting.min_key_len.min(key_len),
            ..admitting
        }
    }

    /// Returns these limits, raised to admit a derivation with these parameters, but to at most
    /// `2^64 - 1` each.
    pub fn admitting(self, params: &Params) -> Limits
        ensures value { result ≡ admitting self params.now }
    {
        let bytes = BufferLens::of(params).bytes();
        let work = params.work();
        Limits {
            max_mem: (self.max_mem as u128).max(bytes).min(u128::from(u64::MAX)) as Size,
            max_work: u128::from(self.max_work)
                .max(work)
                .min(u128::from(u64::MAX)) as u64,
            ..self
        }
    }

    /// Returns whether a derivation with these parameters is within the limits on memory and work.
    #[tactic(auto, unfolding(crate::specs::Limits::are_within))]
    pub fn allow(&self, params: &Params) -> bool
        ensures exact { result ≡ are_within self.now params.now }
    {
        BufferLens::of(params).bytes() <= self.max_mem as u128
            && params.work() <= u128::from(self.max_work)
    }
}
