//! The value of a parameter.
ghost use Rattle.std.specs.Prelude.{◌≡◌, ◌^◌, ok_or};
ghost use Rattle.password_hash.specs.{decimal_below, value_text};
ghost use Rattle.password_hash.specs.declared.error.Error.TheVariants.{EncodingInvalid};

use crate::decimal::read_u32;
use crate::{Error, Result};

/// The value of a parameter: one or more of the letters `a-zA-Z0-9/+.-`.
#[derive(Clone, Copy, Debug)]
pub struct Value<'a> {
    pub(super) text: &'a str,
}

impl<'a> Value<'a> {
    /// Returns the value as text.
    pub fn as_str(&self) -> &'a str
        ensures value { result.now ≡ value_text self.now }
    {
        self.text
    }

    /// Returns the value as a number.
    ///
    /// Returns `EncodingInvalid` unless it is a number below 2^32 in decimal digits, without a
    /// leading zero except in `0` itself.
    pub fn decimal(&self) -> Result<u32>
        ensures value { result ≡ ok_or (decimal_below (2 ^ 32) (value_text self.now)) EncodingInvalid }
    {
        read_u32(self.text).ok_or(Error::EncodingInvalid)
    }
}
