// Reading `$7$` hashes.

ghost use Rattle.std.specs.Prelude.{◌≡◌, ◌↔◌, IsTrue};
ghost use Rattle.password_hash.specs.McfViews.{borrowed_text, fields_left};
ghost use Rattle.scrypt.specs.Terms.{mapped, mcf_id, read_fields, read_mcf, stored, with_refusal};

use crate::mcf::params::decode_params_and_salt;
use crate::output_len_ok;
use crate::stored_parts::{Key, Salt, StoredParts};
use password_hash::mcf::{Fields, PasswordHashRef};
use password_hash::{Error, Result};

/// Returns the parts of a hash. Nothing is copied: the salt and the key are parts of the text, and
/// the key is not decoded.
///
/// Returns the first of these errors: `Algorithm` if the id is not `7`, `EncodingInvalid` if the
/// first field is missing, the errors of reading the first field, `EncodingInvalid` if the second
/// field is missing, if it is not crypt Base64 or if a third field follows, and `OutputSize` if a
/// key of this length cannot be derived.
#[tactic(auto, using(crate::proofs::McfHashFacts::reading_parts))]
pub(crate) fn parts_of_mcf<'a>(hash: &PasswordHashRef<'a>) -> Result<StoredParts<'a>>
    ensures { mapped stored (with_refusal result) ≡ read_mcf (borrowed_text hash.now) }
{
    if !is_mcf(hash.id()) {
        return Err(Error::Algorithm);
    }
    parts_of_fields(hash.fields())
}

// Returns the parts that the fields after the id hold.
#[tactic(auto, using(crate::proofs::McfHashFacts::reading_key))]
fn parts_of_fields<'a>(mut fields: Fields<'a>) -> Result<StoredParts<'a>>
    ensures { mapped stored (with_refusal result) ≡ read_fields (fields_left fields.entry) }
{
    let Some(first) = fields.next() else {
        return Err(Error::EncodingInvalid);
    };
    let (params, salt) = match decode_params_and_salt(first.as_str()) {
        Ok(read) => read,
        Err(refused) => return Err(refused),
    };
    let Some(key) = fields.next() else {
        return Err(Error::EncodingInvalid);
    };
    let Some(key_len) = key.base64_len() else {
        return Err(Error::EncodingInvalid);
    };
    let None = fields.next() else {
        return Err(Error::EncodingInvalid);
    };
    if !output_len_ok(key_len) {
        return Err(Error::OutputSize);
    }
    Ok(StoredParts {
        params,
        salt: Salt::Mcf(salt),
        key: Key::Mcf(key),
        key_len,
    })
}

// Returns whether `id` is the id of `$7$` hashes.
fn is_mcf(id: &str) -> bool
    ensures { IsTrue result ↔ (id.now ≡ mcf_id) }
{
    id == "7"
}
