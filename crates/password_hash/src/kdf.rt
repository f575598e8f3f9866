//! Key derivation functions, from a password and a salt to a key.
ghost use Rattle.std.specs.Prelude.{◌≡◌, List, ℕ, None, OnOk, OnErr, IfErr, length};

use std::alloc::Global;
use std::fmt;

/// An error from deriving a key.
#[derive(Clone, Copy, Debug, PartialEq, Eq)]
pub enum Error {
    /// A key of this length cannot be derived.
    Refused,
    /// An allocation failed.
    OutOfMemory,
}

impl fmt::Display for Error {
    ghost output = { λ _. None };

    fn fmt<W: fmt::Write>(&self, f: &mut fmt::Formatter<W>) -> fmt::Result {
        match self {
            Error::Refused => f.write_str("refused key length"),
            Error::OutOfMemory => f.write_str("out of memory"),
        }
    }
}

impl std::error::Error for Error {}

/// The result type of deriving a key.
pub type Result<T> = std::result::Result<T, Error>;

/// A key derivation function, from a password and a salt to a key of the requested length.
pub trait Kdf {
    ghost use Rattle.password_hash.specs.declared.kdf.Error.{Error};

    // The key that a password and a salt derive.
    ghost derives: { Self → List ℕ → List ℕ → List ℕ → Type 0 };

    // The errors of deriving a key of this length.
    ghost refuses: { Self → List ℕ → List ℕ → ℕ → Error → Type 0 };

    /// Derives a key of `out.len()` bytes from `password` and `salt`, and writes it to `out`.
    ///
    /// On an error `out` is unchanged.
    fn derive_key(&self, alloc: Global, password: &[u8], salt: &[u8], out: &mut [u8]) -> Result<()>
        ensures ok { OnOk result (derives self.now password.now salt.now out.new) }
        ensures err { IfErr result
            (λ e. refuses self.now password.now salt.now (length out.old) e) }
        ensures unchanged { OnErr result (out.new ≡ out.old) };
}

/// A key derivation function for passwords, which is slow on purpose.
pub trait Pbkdf: Kdf {}
