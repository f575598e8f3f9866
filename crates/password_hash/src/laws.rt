//! Laws of the definitions. Each function does nothing at run time: its contract is the law.
ghost use Rattle.std.specs.Prelude.{◌≡◌, ◌↔◌, ℕ, List, Some, All, IsSome, IsTrue};
ghost use Rattle.base64.specs.GeneralPurpose.{IsBytes};
ghost use Rattle.password_hash.specs.Crypt64.{Crypt64};
ghost use Rattle.password_hash.specs.{IsHashText, base64, crypt64_of, decoded, is_base64_letter, letter_value, read_hash};
ghost use Rattle.password_hash.specs.declared.phc.hash.PasswordHash.{PasswordHash};

/// A PHC string is read as the hash that it is printed from, if this hash is allowed, and as no
/// other hash.
pub fn printed_hashes_are_read()
    ensures exact { (text : List ℕ) (hash : PasswordHash) → (read_hash text ≡ Some hash) ↔ IsHashText text hash }
{}

/// Base64 has the letters `a-z`, `A-Z` and `0-9`, `+` and `/`, and no others; crypt Base64 has the
/// letters of its alphabet, and no others.
#[tactic(auto, using(crate::proofs::Base64Facts::base64_letters, crate::proofs::Crypt64Facts::crypt64_letters))]
pub fn encodings_have_their_letters()
    ensures base64 { (bytes : List ℕ) → IsBytes bytes → All (λ byte. IsTrue (is_base64_letter byte)) (base64 bytes) }
    ensures crypt64 { (bytes : List ℕ) → All (λ byte. IsSome (letter_value byte)) (crypt64_of bytes) }
{}

/// A text is decoded as the bytes whose crypt Base64 it is, and any other text is not decoded.
pub fn crypt64_letters_are_decoded()
    ensures exact { (letters bytes : List ℕ) → (decoded letters ≡ Some bytes) ↔ Crypt64 bytes letters }
{}
