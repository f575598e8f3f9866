//! An owned MCF string.
ghost use Rattle.std.specs.Prelude.{◌≡◌, ◌↔◌, ◌∷◌, ◌++◌, nat_eq, IsOk, IfOk, OnOk, IfErr, OnErr, IsErrOf, MatchResult, string_bytes};
ghost use Rattle.std.specs.Cmp.{partial_equiv_from_equiv};
ghost use Rattle.std.specs.Cmp.Lexicographic.{pointwise, nat_list_eq_equiv};
ghost use Rattle.password_hash.specs.{IsField, IsId, IsMcf, IsMcfText, crypt64_of, dollar, fields_of, id_of};

use super::crypt64::Base64;
use super::fields::{Fields, is_field};
use super::hash_ref::{PasswordHashRef, is_id, is_mcf};
use super::{Error, Result};
use std::alloc::Global;
use std::marker::Model;

/// An MCF string: `$`, an id, and any number of fields, each after a `$`.
#[derive(Debug, Drop)]
pub struct PasswordHash {
    text: String,
}

impl Model for PasswordHash {
    ghost use Rattle.std.specs.Prelude.{ℕ, List, string_bytes};
    ghost use Rattle.password_hash.specs.Mcf.{IsMcfText, id_of, fields_of};

    ghost Value = { List ℕ };

    ghost view = { λ a. string_bytes a.text };

    ghost invariant = { λ a. let text = string_bytes a.text in IsMcfText text (id_of text) (fields_of text) };
}

impl PasswordHash {
    ghost use Rattle.password_hash.specs.McfViews.{borrowed_text, fields_left};

    /// Takes `text` as an MCF string, or returns it as the error if it is not one. Does not
    /// allocate.
    pub fn from_string(text: String) -> std::result::Result<PasswordHash, String>
        ensures exact { IsOk result ↔ IsMcf (string_bytes text) }
        ensures value { MatchResult result (λ hash. hash ≡ string_bytes text) (λ back. back ≡ text) }
    {
        if !is_mcf(text.as_str()) {
            return Err(text);
        }
        Ok(PasswordHash { text })
    }

    /// Copies an MCF string.
    ///
    /// Returns `EncodingInvalid`, without allocating, if `text` is not an MCF string, and
    /// `OutOfMemory` if the allocation fails.
    pub fn new(alloc: Global, text: &str) -> Result<PasswordHash>
        ensures ok { IfOk result (λ hash. hash ≡ text.now) }
        ensures accepted { OnOk result (IsMcf text.now) }
        ensures invalid { IsErrOf result Error.EncodingInvalid ↔ (¬ IsMcf text.now) }
        ensures memory { IsErrOf result Error.OutOfMemory → IsMcf text.now }
    {
        if !is_mcf(text) {
            return Err(Error::EncodingInvalid);
        }
        let text = String::from_str(alloc, text)?;
        Ok(PasswordHash { text })
    }

    /// Creates a text with this id and no fields.
    ///
    /// Returns `EncodingInvalid`, without allocating, unless `id` is one or more of `a-z0-9-`, and
    /// `OutOfMemory` if the allocation fails.
    pub fn from_id(alloc: Global, id: &str) -> Result<PasswordHash>
        ensures ok { IfOk result (λ hash. hash ≡ dollar ∷ id.now) }
        ensures accepted { OnOk result (IsId id.now) }
        ensures invalid { IsErrOf result Error.EncodingInvalid ↔ (¬ IsId id.now) }
        ensures memory { IsErrOf result Error.OutOfMemory → IsId id.now }
    {
        if !is_id(id) {
            return Err(Error::EncodingInvalid);
        }
        let mut text = String::with_capacity(alloc, id.len().saturating_add(1))?;
        text.push('$').unwrap();
        text.push_str(id).unwrap();
        Ok(PasswordHash { text })
    }

    /// Appends `$` and a field. On an error the text is unchanged.
    ///
    /// Returns `EncodingInvalid`, without allocating, if `field` has a `$`, and `OutOfMemory` if
    /// the allocation fails.
    pub fn push_str(&mut self, field: &str) -> Result<()>
        ensures ok { OnOk result (self.new ≡ self.old ++ dollar ∷ field.now) }
        ensures accepted { OnOk result (IsField field.now) }
        ensures invalid { IsErrOf result Error.EncodingInvalid ↔ (¬ IsField field.now) }
        ensures memory { IsErrOf result Error.OutOfMemory → IsField field.now }
        ensures unchanged { OnErr result (self.new ≡ self.old) }
    {
        if !is_field(field) {
            return Err(Error::EncodingInvalid);
        }
        // Capacity for both is reserved first, so that nothing is written if the allocation fails.
        self.text.reserve(field.len().saturating_add(1))?;
        self.text.push('$').unwrap();
        self.text.push_str(field).unwrap();
        Ok(())
    }

    /// Appends `$` and the Base64 of `bytes`. On an error the text is unchanged.
    ///
    /// Returns `OutOfMemory` if an allocation fails.
    #[tactic(auto, using(crate::proofs::McfFacts::pushed))]
    pub fn push_base64(&mut self, alloc: Global, bytes: &[u8], encoding: Base64) -> Result<()>
        ensures ok { OnOk result (self.new ≡ self.old ++ dollar ∷ crypt64_of bytes.now) }
        ensures err { IfErr result (λ e. e ≡ Error.OutOfMemory) }
        ensures unchanged { OnErr result (self.new ≡ self.old) }
    {
        let letters = encoding.encode_string(alloc, bytes)?;
        self.push_str(letters.as_str())
    }

    /// Returns the whole text.
    pub fn as_str(&self) -> &str
        ensures value { result.now ≡ self.now }
    {
        self.text.as_str()
    }

    /// Returns the whole text, which is moved out of the hash and not copied.
    pub fn into_string(self) -> String
        ensures value { string_bytes result ≡ self }
    {
        self.text
    }

    /// Returns the id: one or more of `a-z0-9-`.
    pub fn id(&self) -> &str
        ensures value { result.now ≡ id_of self.now }
        ensures reading { IsMcfText self.now result.now (fields_of self.now) }
    {
        self.as_password_hash_ref().id()
    }

    /// Returns an iterator over the fields, in order.
    pub fn fields(&self) -> Fields<'_>
        ensures value { fields_left result ≡ fields_of self.now }
        ensures reading { IsMcfText self.now (id_of self.now) (fields_left result) }
    {
        self.as_password_hash_ref().fields()
    }

    /// Borrows the same text.
    pub fn as_password_hash_ref(&self) -> PasswordHashRef<'_>
        ensures value { borrowed_text result ≡ self.now }
    {
        PasswordHashRef {
            text: self.text.as_str(),
        }
    }
}

impl PartialEq for PasswordHash {
    ghost eq = { λ s t. pointwise nat_eq s t };

    ghost laws = { partial_equiv_from_equiv nat_list_eq_equiv };

    fn eq(&self, other: &PasswordHash) -> bool {
        self.as_str() == other.as_str()
    }
}

impl Eq for PasswordHash {
    ghost laws = { nat_list_eq_equiv };
}
