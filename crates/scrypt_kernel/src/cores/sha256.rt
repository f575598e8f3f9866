//! SHA-256 (FIPS 180-4) with a count of the blocks of 64 bytes that it compresses. Only this module
//! calls the crate `sha2`.

ghost use Rattle.std.specs.Prelude.{◌≡◌, ℕ, ◌+◌, ◌/◌, ◌%◌, ◌++◌, List, [], length};
ghost use Rattle.sha2.specs.Hashers.{Holds256};
ghost use Rattle.scrypt_kernel.specs.{AreHashed, message_cost};
ghost use Rattle.sha2.specs.Sha256.{sha256};

use crate::cores::CoreCount;
use sha2::{Digest, Sha256};

/// Returns a hasher of the empty message.
pub(crate) fn begin() -> Sha256
    ensures { Holds256 result [] }
{
    Sha256::new()
}

/// Returns a hasher of the same message.
pub(crate) fn copy_of(hasher: &Sha256) -> Sha256
    ensures { (m : List ℕ) → Holds256 hasher.now m → Holds256 result m }
{
    hasher.clone().unwrap()
}

/// Adds `bytes` to the message, and counts the blocks that it fills.
#[tactic(auto, using(crate::proofs::CountFacts::hashed_as, crate::proofs::HashFacts::same_fill))]
pub(crate) fn update(hasher: &mut Sha256, bytes: &[u8], cores: &mut CoreCount)
    ensures value { (m : List ℕ) → Holds256 hasher.old m → Holds256 hasher.new (m ++ bytes.now) }
    ensures counted { (m : List ℕ) → Holds256 hasher.old m
        → AreHashed ((length m % 64 + length bytes.now) / 64) cores.old cores.new }
{
    *cores = CoreCount::after_compressions(cores, hasher, bytes, false);
    hasher.update(bytes);
}

/// Returns the digest of the message, and counts the blocks of its end and its padding.
#[tactic(auto, using(crate::proofs::CountFacts::hashed_as, crate::proofs::HashFacts::same_fill))]
pub(crate) fn finish(hasher: Sha256, cores: &mut CoreCount) -> [u8; 32]
    ensures value { (m : List ℕ) → Holds256 hasher m → result ≡ sha256 m }
    ensures counted { (m : List ℕ) → Holds256 hasher m → AreHashed (message_cost (length m % 64)) cores.old cores.new }
{
    *cores = CoreCount::after_compressions(cores, &hasher, &[], true);
    hasher.finalize().into()
}
