//! The name of an algorithm or of a parameter.
ghost use Rattle.std.specs.Prelude.{◌≡◌, ◌↔◌, Some, IsOk, IfOk, IfErr, IsTrue, codes};
ghost use Rattle.password_hash.specs.Letters.{is_identifier};
ghost use Rattle.password_hash.specs.declared.error.Error.TheVariants.{EncodingInvalid};

use crate::letters::are_identifier_letters;
use crate::phc::short_bytes::ShortBytes;
use crate::{Error, Result};
use std::marker::Model;
use std::{fmt, str};

/// An identifier: 1 to 32 of the letters `a-z0-9-`.
#[derive(Clone, Copy, Debug, PartialEq, Eq)]
pub struct Ident {
    bytes: ShortBytes<1, 32>,
}

impl Model for Ident {
    ghost use Rattle.std.specs.Prelude.{ℕ, List, IsTrue};
    ghost use Rattle.password_hash.specs.Letters.{is_identifier};

    ghost Value = { List ℕ };

    ghost view = { λ a. a.bytes };

    ghost invariant = { λ a. IsTrue (is_identifier a.bytes) };

    ghost inverse = { λ xs. record { bytes = xs } };
}

impl Ident {
    /// The identifier `scrypt`.
    pub const SCRYPT: Ident = Ident {
        bytes: ShortBytes {
            places: [
                b's', b'c', b'r', b'y', b'p', b't', 0, 0, 0, 0, 0, 0, 0, 0, 0, 0, 0, 0, 0, 0, 0, 0,
                0, 0, 0, 0, 0, 0, 0, 0, 0, 0,
            ],
            len: 6,
        },
    };

    /// Creates an identifier from its text.
    ///
    /// Returns `EncodingInvalid` unless `text` is 1 to 32 of the letters `a-z0-9-`.
    pub fn new(text: &str) -> Result<Ident>
        ensures exact { IsOk result ↔ IsTrue (is_identifier text.now) }
        ensures value { IfOk result (λ ident. ident ≡ text.now) }
        ensures err { IfErr result (λ e. e ≡ EncodingInvalid) }
    {
        match ShortBytes::copied(text.as_bytes()) {
            Some(bytes) if are_identifier_letters(bytes.as_bytes()) => Ok(Ident { bytes }),
            _ => Err(Error::EncodingInvalid),
        }
    }

    /// Returns the identifier as text.
    pub fn as_str(&self) -> &str
        ensures value { result.now ≡ self.now }
        ensures identifier { IsTrue (is_identifier result.now) }
    {
        str::from_utf8(self.bytes.as_bytes()).unwrap()
    }
}

impl fmt::Display for Ident {
    ghost output = { λ ident. Some ident };

    fn fmt<W: fmt::Write>(&self, f: &mut fmt::Formatter<W>) -> fmt::Result {
        f.write_str(self.as_str())
    }
}
