// Reading the parameters and the salt of a `$7$` hash.

ghost use Rattle.std.specs.Prelude.{◌≡◌, ◌≤◌, drop, length, Ok, Err, IfOk, IfErr};
ghost use Rattle.scrypt.specs.Terms.{field_params, refusal, with_refusal};

use crate::Params;
use crate::mcf::five_letters::decode64_uint32;
use password_hash::mcf::alphabet::value;
use password_hash::{Error, Result};

/// Reads the parameters and the salt from the first field of a `$7$` hash: one letter of `log_n`,
/// five letters of `r`, five letters of `p`, and then the salt, which is the rest of `text`, not
/// decoded. The parameters have no length of a stored key.
///
/// Returns `EncodingInvalid` if `text` is empty, if its first byte is 128 or above, or if `r` or
/// `p` has fewer than five bytes or a byte outside the alphabet. Otherwise returns `ParamsInvalid`
/// if [`Params::new`] does not accept the parameters. A first byte below 128 that is outside the
/// alphabet reads as `log_n` 255, so the error is `ParamsInvalid`, not `EncodingInvalid`.
pub fn decode_params_and_salt(text: &str) -> Result<(Params, &[u8])>
    ensures params { IfOk result (λ read. field_params text.now ≡ Ok read.0) }
    ensures salt { IfOk result (λ read. read.1.now ≡ drop 11 text.now) }
    ensures err { IfErr result (λ e. field_params text.now ≡ Err (refusal e)) }
{
    let bytes = text.as_bytes();
    match decode_params(bytes) {
        Ok(params) => Ok((params, &bytes[11..])),
        Err(error) => Err(error),
    }
}

// Reads the parameters from the first eleven bytes.
#[tactic(auto, using(crate::proofs::McfParamsFacts::reading_field), unfolding(crate::specs::McfParams::field_params))]
fn decode_params(letters: &[u8]) -> Result<Params>
    ensures value { with_refusal result ≡ field_params letters.now }
    ensures long { IfOk result (λ params. 11 ≤ length letters.now) }
{
    let Some(first) = letters.first() else {
        return Err(Error::EncodingInvalid);
    };
    if !first.is_ascii() {
        return Err(Error::EncodingInvalid);
    }
    let log_n = value(*first).unwrap_or(255);
    let Ok(r) = decode64_uint32(&letters[1..]) else {
        return Err(Error::EncodingInvalid);
    };
    let Ok(p) = decode64_uint32(&letters[6..]) else {
        return Err(Error::EncodingInvalid);
    };
    Params::of_text(log_n, r, p)
}
