//! The parts of a PHC string, read one after another.
//!
//! Each function takes the rest of the text: everything after the `$` that follows the parts
//! already read, or `None` after the last part. A result of `None` means that the text is not a PHC
//! text.
ghost use Rattle.std.specs.Prelude.{◌≡◌, option_map};
ghost use Rattle.password_hash.specs.Parts.{before_parts, parts_left};
ghost use Rattle.password_hash.specs.PhcReading.{decoded_bytes, params_and_rest, salt_and_key, version_and_rest};

use crate::Version;
use crate::decimal::read_u32;
use crate::parts::{contains, first_piece};
use crate::phc::pairs::cut;
use crate::phc::{Output, ParamsString, Salt, ShortBytes};
use base64::engine::general_purpose::STANDARD_NO_PAD;

/// Returns the version, if the next part begins with `v=`, and the rest of the text after it.
pub(super) fn take_version(left: Option<&str>) -> Option<(Option<Version>, Option<&str>)>
    ensures value { option_map before_parts result ≡ version_and_rest (parts_left left.entry) }
{
    let Some(text) = left else {
        return Some((None, None));
    };
    let (part, after) = first_piece(text, '$');
    if !part.starts_with("v=") {
        return Some((None, left));
    }
    let (_, digits) = cut(part, '=');
    let version = read_u32(digits)?;
    Some((Some(version), after))
}

/// Returns the parameters, if the next part has a `=`, and the rest of the text after them.
pub(super) fn take_params(left: Option<&str>) -> Option<(ParamsString, Option<&str>)>
    ensures value { option_map before_parts result ≡ params_and_rest (parts_left left.entry) }
{
    let Some(text) = left else {
        return Some((ParamsString::new(), None));
    };
    let (part, after) = first_piece(text, '$');
    if !contains(part, b'=') {
        return Some((ParamsString::new(), left));
    }
    Some((ParamsString::parse(part).ok()?, after))
}

/// Returns the salt and the key after it, if they are there. They are the last parts of the text.
#[tactic(auto, using(crate::proofs::PhcReadingFacts::parts_left_over))]
pub(super) fn take_salt_and_key(left: Option<&str>) -> Option<(Option<Salt>, Option<Output>)>
    ensures value { result ≡ salt_and_key (parts_left left.entry) }
{
    let Some(text) = left else {
        return Some((None, None));
    };
    let (letters, after) = first_piece(text, '$');
    let salt = decode(letters)?;
    let Some(text) = after else {
        return Some((Some(salt), None));
    };
    let (letters, after) = first_piece(text, '$');
    let key = decode(letters)?;
    if after.is_some() {
        return None;
    }
    Some((Some(salt), Some(key)))
}

/// Decodes letters of Base64 (RFC 4648, section 4) without padding to `MIN` to 64 bytes. Returns
/// `None` if they are not an encoding, or encode fewer or more bytes.
fn decode<const MIN: usize>(letters: &str) -> Option<ShortBytes<MIN, 64>>
    ensures value { result ≡ decoded_bytes MIN letters.now }
{
    // The encoding of 64 bytes has 86 letters, which are decoded in a buffer of 66 bytes.
    if letters.len() > 86 {
        return None;
    }
    let mut places = [0; 66];
    let Ok(len) = STANDARD_NO_PAD.decode_slice_unchecked(letters.as_bytes(), &mut places) else {
        return None;
    };
    ShortBytes::copied(&places[..len])
}
