// The contents of a stored hash of either format.

ghost use Rattle.std.specs.Prelude.{◌≡◌, ◌↔◌, ◌≤◌, length, take, drop, IsTrue, Some};
ghost use Rattle.password_hash.specs.Crypt64.{IsPiece};
ghost use Rattle.scrypt.specs.Accepted.{is_output_len};
ghost use Rattle.scrypt.specs.StoredKey.{decoded_key, key_bytes, salt_bytes};
ghost use Rattle.scrypt_kernel.specs.Pbkdf2.{max_output_len};

use crate::Params;
use password_hash::mcf::Field;
use password_hash::phc;

/// The salt of a hash of either format. The salt of a `$7$` hash is part of the text, and is not
/// decoded.
#[derive(Clone, Copy)]
pub(crate) enum Salt<'a> {
    Mcf(&'a [u8]),
    Phc(phc::Salt),
}

impl<'a> Salt<'a> {
    /// Returns the bytes of the salt.
    pub(crate) fn as_bytes(&self) -> &[u8]
        ensures { result.now ≡ salt_bytes self.now }
    {
        match self {
            Salt::Mcf(letters) => letters,
            Salt::Phc(salt) => salt.as_bytes(),
        }
    }
}

/// The key of a hash of either format. The key of a `$7$` hash is a field of the text, and is not
/// decoded.
#[derive(Clone, Copy)]
pub(crate) enum Key<'a> {
    Mcf(Field<'a>),
    Phc(phc::Output),
    /// The key of a decoy, of this length. No password has it.
    Decoy(usize),
}

impl<'a> Key<'a> {
    /// Returns whether the key has `bytes` at byte `at`. Every byte is compared, also after a
    /// difference.
    #[tactic(auto, using(password_hash::proofs::GroupFacts::encoded_is))]
    pub(crate) fn matches_at(&self, at: usize, bytes: &[u8]) -> bool
        requires encoding { decoded_key self.now ≡ Some (key_bytes self.now) }
        requires piece { IsPiece at (length bytes.now) (length (key_bytes self.now)) }
        ensures exact { IsTrue result ↔ (bytes.now ≡ take (length bytes.now) (drop at (key_bytes self.now))) }
    {
        match self {
            Key::Mcf(field) => field.base64_matches_at(at, bytes),
            Key::Phc(output) => output.matches_at(at, bytes),
            Key::Decoy(_) => bytes.is_empty(),
        }
    }
}

/// The parameters, the salt and the key of a hash. They borrow only from its text.
#[derive(Clone, Copy)]
pub(crate) struct StoredParts<'a> {
    pub(crate) params: Params,
    pub(crate) salt: Salt<'a>,
    pub(crate) key: Key<'a>,
    /// The length of the key in bytes.
    pub(crate) key_len: usize,
    ghost encoding: { decoded_key key ≡ Some (key_bytes key) },
    ghost len: { length (key_bytes key) ≡ key_len },
    ghost allowed: { IsTrue (is_output_len key_len) },
}

impl<'a> StoredParts<'a> {
    /// Proof hint: exposes that the key is no longer than PBKDF2 can derive.
    #[tactic(auto, using(crate::proofs::AcceptedFacts::output_len_bound))]
    pub(crate) fn expose_key_len(&self)
        ensures { self.now.key_len ≤ max_output_len }
    {
        let _ = &self.key_len;
    }
}
