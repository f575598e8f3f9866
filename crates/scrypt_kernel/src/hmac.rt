//! HMAC (RFC 2104) with SHA-256.

ghost use Rattle.std.specs.Prelude.{◌≡◌, ℕ, List, ◌++◌, bit_xor, length, map};
ghost use Rattle.scrypt_kernel.specs.{AreHashed, HoldsText, end_cost, hmac_sha256, key_cost, padded_key, state_cost};

use crate::CoreCount;
use crate::cores::sha256::{begin, copy_of, finish, update};
use sha2::Sha256;

/// Returns the HMAC-SHA-256 of `text` followed by `tail`, with the key `key` (RFC 2104, section 2).
///
/// Each slice may have any length, and the two parts of the text are never joined in memory. A key
/// of more than 64 bytes is replaced by its digest.
pub fn hmac_sha256(key: &[u8], text: &[u8], tail: &[u8]) -> [u8; 32]
    ensures value { result ≡ hmac_sha256 key.now (text.now ++ tail.now) }
{
    let mut cores = CoreCount::new();
    Hmac::new(key, text, &mut cores).finish(tail, &mut cores)
}

// A key, and the text hashed with it so far. `finish` does not change it, so that texts with the
// same beginning hash it only once.
#[derive(Drop)]
pub(crate) struct Hmac {
    inner: Sha256,
    outer: Sha256,
}

impl Hmac {
    // Creates a state with this key and this text.
    pub(crate) fn new(key: &[u8], text: &[u8], cores: &mut CoreCount) -> Hmac
        ensures value { HoldsText result key.now text.now }
        ensures counted { AreHashed (state_cost (length key.now) (length text.now)) cores.old cores.new }
    {
        let block = padded_key(key, cores);
        let mut inner = begin();
        update(&mut inner, &masked(&block, 0x36), cores);
        update(&mut inner, text, cores);
        let mut outer = begin();
        update(&mut outer, &masked(&block, 0x5c), cores);
        Hmac { inner, outer }
    }

    // Returns HMAC of the text followed by `tail`.
    #[tactic(auto, unfolding(crate::specs::Hmac::hmac_sha256))]
    pub(crate) fn finish(&self, tail: &[u8], cores: &mut CoreCount) -> [u8; 32]
        ensures value { (secret text : List ℕ) → HoldsText self.now secret text
            → result ≡ hmac_sha256 secret (text ++ tail.now) }
        ensures counted { (secret text : List ℕ) → HoldsText self.now secret text
            → AreHashed (end_cost (length text) (length tail.now)) cores.old cores.new }
    {
        let mut inner = copy_of(&self.inner);
        update(&mut inner, tail, cores);
        let mut outer = copy_of(&self.outer);
        update(&mut outer, &finish(inner, cores), cores);
        finish(outer, cores)
    }
}

// Returns the key in a block of 64 bytes: the key, or its digest if it is longer, and then zeros.
#[tactic(auto, using(crate::proofs::Pbkdf2Facts::padded_short))]
fn padded_key(key: &[u8], cores: &mut CoreCount) -> [u8; 64]
    ensures value { result ≡ padded_key key.now }
    ensures counted { AreHashed (key_cost (length key.now)) cores.old cores.new }
{
    let mut padded = [0u8; 64];
    if key.len() > 64 {
        let mut hasher = begin();
        update(&mut hasher, key, cores);
        let digest = finish(hasher, cores);
        padded[..32].copy_from_slice(&digest);
    } else {
        padded[..key.len()].copy_from_slice(key);
    }
    padded
}

// Returns each byte of the key's block xor `mask`, which is the byte of ipad or of opad.
fn masked(block: &[u8; 64], mask: u8) -> [u8; 64]
    ensures { result ≡ map (bit_xor mask) block.now }
{
    let mut out = [0u8; 64];
    for i in 0..64 {
        out[i] = mask ^ block[i];
    }
    out
}
