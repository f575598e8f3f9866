// Conversions between parameters and the PHC format.

ghost use Rattle.std.specs.Prelude.{◌≡◌, ◌^◌, codes, ok_or, Ok, IsTrue};
ghost use Rattle.password_hash.specs.Decimal.{decimal_below};
ghost use Rattle.scrypt.specs.Terms.{ParamInvalid, is_stored_len, output_len_of, params_of_pairs, params_with_len};
ghost use Rattle.scrypt.specs.Terms.{with_refusal, written_pairs};
ghost use Rattle.password_hash.specs.Value.{value_text};

use crate::Params;
use password_hash::phc::{ParamsString, PasswordHash, Value};
use password_hash::{Error, Result};

// The values of a missing `ln`, `r` or `p`, and the length of a missing key. Stored hashes rely on
// them, so they must not change when other parameters are recommended for new hashes.
const IMPLIED_LOG_N: u8 = 17;

const IMPLIED_R: u32 = 8;

const IMPLIED_P: u32 = 1;

const IMPLIED_KEY_LEN: usize = 32;

impl TryFrom<&ParamsString> for Params {
    type Error = Error;

    ghost try_from_gives = { λ text answer. with_refusal answer ≡ params_of_pairs text.now };

    /// Reads the parameters `ln`, `r` and `p`. If one is missing, it is 17, 8 or 1, whatever is
    /// recommended for new hashes. The result has no length of a stored key.
    ///
    /// Returns the error of the first pair that has one: `ParamInvalid` with the name, if `ln` is
    /// not a decimal of at most 255 or `r` or `p` is not a decimal, and `ParamsInvalid` for any
    /// other name. Otherwise returns `ParamsInvalid` if [`Params::new`] does not accept the
    /// parameters.
    #[tactic(auto, unfolding(crate::specs::PhcParams::read_pairs))]
    fn try_from(text: &ParamsString) -> Result<Params> {
        let mut log_n = IMPLIED_LOG_N;
        let mut r = IMPLIED_R;
        let mut p = IMPLIED_P;
        'pairs: for (name, value) in text.iter() {
            match name.as_str() {
                "ln" => log_n = log_n_of(value)?,
                "r" => r = number_of(value, "r")?,
                "p" => p = number_of(value, "p")?,
                _ => return Err(Error::ParamsInvalid),
            }
        }
        Params::of_text(log_n, r, p)
    }
}

// Returns the value of `ln`, a decimal of at most 255.
#[tactic(auto, using(crate::proofs::PhcFacts::numbers))]
fn log_n_of(value: Value<'_>) -> Result<u8>
    ensures { with_refusal result ≡ ok_or (decimal_below 256 (value_text value.entry)) (ParamInvalid (codes "ln")) }
{
    let refused = Err(Error::ParamInvalid { name: "ln" });
    let Ok(number) = value.decimal() else {
        return refused;
    };
    match u8::try_from(number) {
        Ok(log_n) => Ok(log_n),
        Err(_) => refused,
    }
}

// Returns the value of a parameter, a decimal.
#[tactic(auto, using(crate::proofs::PhcFacts::numbers))]
fn number_of(value: Value<'_>, name: &'static str) -> Result<u32>
    ensures { with_refusal result ≡ ok_or (decimal_below (2 ^ 32) (value_text value.entry)) (ParamInvalid name.now) }
{
    match value.decimal() {
        Ok(number) => Ok(number),
        Err(_) => Err(Error::ParamInvalid { name }),
    }
}

impl TryFrom<&PasswordHash> for Params {
    type Error = Error;

    ghost try_from_gives = { λ hash answer. with_refusal answer ≡ params_with_len hash.now };

    /// Reads the parameters of a hash, with the length of its key, or 32 if it has no key. The
    /// algorithm is ignored.
    ///
    /// Returns `Version` if the hash has a version, and otherwise the errors of reading its
    /// parameters.
    fn try_from(hash: &PasswordHash) -> Result<Params> {
        if hash.version.is_some() {
            return Err(Error::Version);
        }
        match Params::try_from(&hash.params) {
            Ok(params) => Ok(params.with_output_len(output_len_of(hash))),
            Err(refused) => Err(refused),
        }
    }
}

// Returns the length of a hash's key in bytes, or 32 if it has no key.
#[tactic(auto, using(std::proofs::lemmas::Bool::Decides::nat_tests), unfolding(crate::specs::Accepted::is_stored_len))]
fn output_len_of(hash: &PasswordHash) -> usize
    ensures value { result ≡ output_len_of hash.now.hash }
    ensures stored { IsTrue (is_stored_len (Some result)) }
{
    match &hash.hash {
        Some(key) => key.len(),
        None => IMPLIED_KEY_LEN,
    }
}

impl TryFrom<&Params> for ParamsString {
    type Error = Error;

    ghost try_from_gives = { λ params answer. with_refusal answer ≡ Ok (written_pairs params.now) };

    /// Writes the parameters as `ln=..,r=..,p=..` in decimal digits. Never returns an error.
    fn try_from(params: &Params) -> Result<ParamsString> {
        Ok(written(params))
    }
}

impl TryFrom<Params> for ParamsString {
    type Error = Error;

    ghost try_from_gives = { λ params answer. with_refusal answer ≡ Ok (written_pairs params) };

    /// Writes the parameters as `ln=..,r=..,p=..` in decimal digits. Never returns an error.
    fn try_from(params: Params) -> Result<ParamsString> {
        Ok(written(&params))
    }
}

// Writes the parameters of a hash.
#[tactic(auto, using(crate::proofs::PhcFacts::pairs_of_params))]
pub(super) fn written(params: &Params) -> ParamsString
    ensures { result ≡ written_pairs params.now }
{
    let mut text = ParamsString::new();
    text.add_decimal("ln", u32::from(params.log_n())).unwrap();
    text.add_decimal("r", params.r()).unwrap();
    text.add_decimal("p", params.p()).unwrap();
    text
}
