//! A borrowed MCF string.
ghost use Rattle.std.specs.Prelude.{◌≡◌, ◌≢◌, ◌↔◌, ℕ, List, [], ◌∷◌, IsTrue, IsOk, IfOk, IfErr, MatchOption};
ghost use Rattle.password_hash.specs.Mcf.{IsId, IsMcfText, IsMcf, id_of, fields_of};
ghost use Rattle.password_hash.specs.Parts.{dollar, parts_of, parts_left};

use super::fields::Fields;
use super::{Error, Result};
use crate::letters::are_identifier_letters;
use crate::parts::split_first;

/// A borrowed MCF string: `$`, an id, and any number of fields, each after a `$`.
#[derive(Clone, Copy, Debug)]
pub struct PasswordHashRef<'a> {
    pub(super) text: &'a str,
    pub ghost is_text: { IsMcfText text.now (id_of text.now) (fields_of text.now) },
}

impl<'a> PasswordHashRef<'a> {
    ghost use Rattle.password_hash.specs.McfViews.{borrowed_text, fields_left};

    /// Borrows an MCF string. Does not allocate.
    ///
    /// Returns `EncodingInvalid` if `text` is not an MCF string.
    pub fn new(text: &'a str) -> Result<PasswordHashRef<'a>>
        ensures exact { IsOk result ↔ IsMcf text.now }
        ensures ok { IfOk result (λ hash. borrowed_text hash ≡ text.now) }
        ensures err { IfErr result (λ e. e ≡ Error.EncodingInvalid) }
    {
        if !is_mcf(text) {
            return Err(Error::EncodingInvalid);
        }
        Ok(PasswordHashRef { text })
    }

    /// Returns the whole text.
    pub fn as_str(&self) -> &'a str
        ensures value { result.now ≡ borrowed_text self.now }
    {
        self.text
    }

    /// Returns the id: one or more of `a-z0-9-`.
    #[tactic(auto, using(crate::proofs::McfFacts::id_of_parts))]
    pub fn id(&self) -> &'a str
        ensures value { result.now ≡ id_of (borrowed_text self.now) }
        ensures reading { IsMcfText (borrowed_text self.now) result.now (fields_of (borrowed_text self.now)) }
    {
        split_first(self.text).unwrap().0
    }

    /// Returns an iterator over the fields, in order.
    #[tactic(auto, using(crate::proofs::McfFacts::fields_of_parts))]
    pub fn fields(&self) -> Fields<'a>
        ensures value { fields_left result ≡ fields_of (borrowed_text self.now) }
        ensures reading { IsMcfText (borrowed_text self.now) (id_of (borrowed_text self.now)) (fields_left result) }
    {
        Fields {
            left: split_first(self.text).unwrap().1,
        }
    }
}

/// Returns whether `text` is an MCF string.
pub(super) fn is_mcf(text: &str) -> bool
    ensures exact { IsTrue result ↔ IsMcf text.now }
    ensures reading { IsTrue result → IsMcfText text.now (id_of text.now) (fields_of text.now) }
{
    match split_first(text) {
        Some((id, _)) => is_id(id),
        None => false,
    }
}

/// Returns whether `text` is an id: one or more of `a-z0-9-`.
pub(super) fn is_id(text: &str) -> bool
    ensures { IsTrue result ↔ IsId text.now }
{
    !text.is_empty() && are_identifier_letters(text.as_bytes())
}
