//! The parameters of a hash.
ghost use Rattle.std.specs.Prelude.{◌≡◌, ◌≢◌, ◌↔◌, ◌≤◌, ◌∷◌, ◌++◌, ℕ, List, [], length, All, Contains, decimal, true};
ghost use Rattle.std.specs.Prelude.{IsOk, IfErr, IfSome, IfNone, OnOk, OnErr, ok_or};
ghost use Rattle.std.specs.Cmp.{and_equiv, on_equiv, partial_equiv_from_equiv};
ghost use Rattle.std.specs.Cmp.Lexicographic.{lists_equiv, nat_list_eq_equiv, pointwise};
ghost use Rattle.password_hash.specs.{ArePairs, IsPair, is_value, pair_eq, pairs_left, pairs_of, pairs_text};
ghost use Rattle.password_hash.specs.{parsed_pairs, value_text, with_pair};
ghost use Rattle.password_hash.specs.declared.error.Error.TheVariants.{ParamsInvalid};

use crate::letters::are_value_letters;
use crate::parts::first_piece;
use crate::phc::pairs::{Pairs, cut};
use crate::phc::{Ident, Value};
use crate::{Error, Result};
use arrayvec::ArrayString;
use itoa::Buffer;
use std::marker::Model;

/// The parameters of a hash: pairs of a name and a value, in order.
///
/// A name is an identifier other than `v`, and no name occurs twice. The text
/// `name=value,name=value` has at most 127 bytes.
#[derive(Debug, Drop)]
pub struct ParamsString {
    text: ArrayString<127>,
}

impl Model for ParamsString {
    ghost use Rattle.std.specs.Prelude.{ℕ, List};
    ghost use Rattle.password_hash.specs.Pairs.{ArePairs, pairs_of};

    ghost Value = { List (List ℕ × List ℕ) };

    ghost view = { λ a. pairs_of a.text.bytes };

    ghost invariant = { λ a. ArePairs (pairs_of a.text.bytes) };
}

impl ParamsString {
    /// Creates an empty list of parameters.
    pub fn new() -> ParamsString
        ensures value { result ≡ [] }
    {
        ParamsString {
            text: ArrayString::new(),
        }
    }

    /// Returns the text of the parameters, at most 127 bytes. It is empty if there are no
    /// parameters.
    #[tactic(auto, using(crate::proofs::ParamsFacts::text_of_pairs))]
    pub fn as_str(&self) -> &str
        ensures value { result.now ≡ pairs_text self.now }
        ensures pairs { ArePairs self.now }
    {
        self.text.as_str()
    }

    /// Parses the text of parameters, which is empty if there are no parameters.
    ///
    /// Returns `ParamsInvalid` if a name or a value is invalid, if a name occurs twice, or if
    /// `text` has more than 127 bytes.
    pub fn parse(text: &str) -> Result<ParamsString>
        ensures value { result ≡ ok_or (parsed_pairs text.now) ParamsInvalid }
    {
        let mut params = ParamsString::new();
        let mut left = unless_empty(text);
        while let Some(rest) = left {
            let (pair, after) = first_piece(rest, ',');
            let (name, value) = cut(pair, '=');
            params.add(name, value)?;
            left = after;
        }
        Ok(params)
    }

    /// Appends a parameter whose value is a number in decimal digits.
    ///
    /// Returns `ParamsInvalid`, and changes nothing, if `name` is not an identifier, is `v` or is
    /// the name of another parameter, or if the text would have more than 127 bytes.
    pub fn add_decimal(&mut self, name: &str, value: u32) -> Result<()>
        ensures exact { IsOk result ↔ ArePairs (self.old ++ (name.now, decimal value) ∷ []) }
        ensures ok { OnOk result (self.new ≡ self.old ++ (name.now, decimal value) ∷ []) }
        ensures unchanged { OnErr result (self.new ≡ self.old) }
        ensures err { IfErr result (λ e. e ≡ ParamsInvalid) }
    {
        self.add(name, Buffer::new().format(value))
    }

    /// Returns an iterator over the names and values, in order.
    pub fn iter(&self) -> Pairs<'_>
        ensures value { result ≡ self.now }
    {
        Pairs {
            left: unless_empty(self.text.as_str()),
        }
    }

    /// Returns the value of the parameter `name`, or `None` if there is no such parameter.
    pub fn get(&self, name: &str) -> Option<Value<'_>>
        ensures found { IfSome result (λ value. Contains self.now (name.now, value_text value)) }
        ensures none { IfNone result (All (λ pair. pair.0 ≢ name.now) self.now) }
    {
        for (ident, value) in self.iter() {
            if ident.as_str() == name {
                return Some(value);
            }
        }
        None
    }

    /// Appends a pair. On `ParamsInvalid` nothing changes.
    fn add(&mut self, name: &str, value: &str) -> Result<()>
        ensures exact { IsOk result ↔ ArePairs (self.old ++ (name.now, value.now) ∷ []) }
        ensures ok { OnOk result (self.new ≡ self.old ++ (name.now, value.now) ∷ []) }
        ensures unchanged { OnErr result (self.new ≡ self.old) }
        ensures err { IfErr result (λ e. e ≡ ParamsInvalid) }
    {
        if !is_pair(name, value) {
            return Err(Error::ParamsInvalid);
        }
        match self.get(name) {
            Some(_there) => Err(Error::ParamsInvalid),
            None => push_pair(&mut self.text, name, value),
        }
    }
}

impl PartialEq for ParamsString {
    ghost eq = { pointwise pair_eq };

    ghost laws = { partial_equiv_from_equiv (lists_equiv (and_equiv
        (on_equiv (λ (pair : List ℕ × List ℕ). pair.0) nat_list_eq_equiv)
        (on_equiv (λ (pair : List ℕ × List ℕ). pair.1) nat_list_eq_equiv))) };

    #[tactic(auto, using(crate::proofs::ParamsFacts::tested))]
    fn eq(&self, other: &ParamsString) -> bool {
        self.as_str() == other.as_str()
    }
}

impl Eq for ParamsString {
    ghost laws = { lists_equiv (and_equiv
        (on_equiv (λ (pair : List ℕ × List ℕ). pair.0) nat_list_eq_equiv)
        (on_equiv (λ (pair : List ℕ × List ℕ). pair.1) nat_list_eq_equiv)) };
}

/// Returns a text of pairs, or `None` if it is empty, because then there are no pairs.
fn unless_empty(text: &str) -> Option<&str>
    ensures { pairs_left result ≡ pairs_of text.now }
{
    if text.is_empty() { None } else { Some(text) }
}

/// Appends a pair to the text of other pairs. Returns `ParamsInvalid`, and changes nothing, if the
/// capacity is too small.
fn push_pair(text: &mut ArrayString<127>, name: &str, value: &str) -> Result<()>
    ensures exact { IsOk result
        ↔ (length (with_pair text.old.bytes (name.now, value.now)) ≤ 127) }
    ensures ok { OnOk result (text.new.bytes ≡ with_pair text.old.bytes (name.now, value.now)) }
    ensures unchanged { OnErr result (text.new.bytes ≡ text.old.bytes) }
    ensures err { IfErr result (λ e. e ≡ ParamsInvalid) }
{
    let comma = if text.is_empty() { "" } else { "," };
    let room = text.remaining_capacity();
    if name.len() > room
        || value.len() > room
        || room < comma.len() + name.len() + 1 + value.len()
    {
        return Err(Error::ParamsInvalid);
    }
    text.push_str(comma);
    text.push_str(name);
    text.push_str("=");
    text.push_str(value);
    Ok(())
}

/// Returns whether these are the name and the value of a parameter.
fn is_pair(name: &str, value: &str) -> bool
    ensures { (result ≡ true) ↔ IsPair (name.now, value.now) }
{
    name != "v" && Ident::new(name).is_ok() && is_value(value)
}

/// Returns whether `text` is a value: one or more of `a-zA-Z0-9/+.-`.
fn is_value(text: &str) -> bool
    ensures { result ≡ is_value text.now }
{
    !text.is_empty() && are_value_letters(text.as_bytes())
}
