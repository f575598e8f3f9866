//! PBKDF2 (RFC 8018, section 5.2) with HMAC-SHA-256 and an iteration count of 1.

ghost use Rattle.std.specs.Prelude.{◌≡◌, ℕ, ◌+◌, ◌*◌, ◌/◌, ◌≤◌, List, length};
ghost use Rattle.scrypt_kernel.specs.{AreDerivedFrom, AreHashed, end_cost, max_output_len, pbkdf2, pbkdf2_cost};
ghost use Rattle.scrypt_kernel.specs.{pbkdf2_from, state_cost};

use crate::CoreCount;
use crate::hmac::Hmac;

/// Fills `out` with the key that PBKDF2 derives from `password` and `salt` in one iteration
/// (RFC 8018, section 5.2).
///
/// `out` has at most `(2^32 - 1) * 32` bytes, and may be empty.
pub fn pbkdf2_one(password: &[u8], salt: &[u8], out: &mut [u8])
    requires length { length out.old ≤ max_output_len }
    ensures value { out.new ≡ pbkdf2 password.now salt.now (length out.old) }
{
    pbkdf2_counted(password, salt, out, &mut CoreCount::new());
}

/// Derives the key as [`pbkdf2_one`] does, and counts the blocks that SHA-256 compresses: the
/// password and the salt are hashed once.
pub fn pbkdf2_counted(password: &[u8], salt: &[u8], out: &mut [u8], cores: &mut CoreCount)
    requires length { length out.old ≤ max_output_len }
    ensures value { out.new ≡ pbkdf2 password.now salt.now (length out.old) }
    ensures counted { AreHashed
        (pbkdf2_cost (length password.now) (length salt.now) (length out.old)) cores.old cores.new }
{
    Blocks::new(password, salt, cores).write(0, out, cores);
}

/// The blocks T_1, T_2, .. of 32 bytes each that PBKDF2 derives from a password and a salt.
///
/// The salt is hashed only once, for any number of blocks, written in any number of pieces.
#[derive(Drop)]
pub struct Blocks {
    hmac: Hmac,
}

impl Blocks {
    /// Hashes the password and the salt.
    pub fn new(password: &[u8], salt: &[u8], cores: &mut CoreCount) -> Blocks
        ensures derived { AreDerivedFrom result password.now salt.now }
        ensures counted { AreHashed (state_cost (length password.now) (length salt.now)) cores.old cores.new }
    {
        Blocks {
            hmac: Hmac::new(password, salt, cores),
        }
    }

    /// Fills `out` with the blocks after the first `skipped` blocks: the bytes from byte
    /// `32 * skipped` on.
    ///
    /// The last of these bytes is within the `(2^32 - 1) * 32` bytes that PBKDF2 can derive.
    pub fn write(&self, skipped: u32, out: &mut [u8], cores: &mut CoreCount)
        requires length { 32 * skipped + length out.old ≤ max_output_len }
        ensures value { (password salt : List ℕ) → AreDerivedFrom self.now password salt
            → out.new ≡ pbkdf2_from password salt (32 * skipped) (length out.old) }
        ensures counted { (password salt : List ℕ) → AreDerivedFrom self.now password salt
            → AreHashed ((length out.old + 31) / 32 * end_cost (length salt) 4) cores.old cores.new }
    {
        for i in 0..out.len().div_ceil(32) {
            // Block i is HMAC of the salt and its number, in four bytes: blocks are counted from 1.
            let number = (skipped + i as u32 + 1).to_be_bytes();
            let block = self.hmac.finish(&number, cores);
            let at = 32 * i;
            let size = (out.len() - at).min(32);
            out[at..at + size].copy_from_slice(&block[..size]);
        }
    }
}
