//! The text of a password hash, printed without allocating.
ghost use Rattle.std.specs.Prelude.{◌≡◌, ◌+◌, ◌≤◌, ◌∷◌, ◌++◌, Some, length};
ghost use Rattle.arrayvec.specs.ArrayString.{array_string_len};
ghost use Rattle.password_hash.specs.Parts.{dollar, parts_text};
ghost use Rattle.password_hash.specs.Phc.{base64, hash_text, params_part, salt_and_key_parts, version_part};

use crate::Version;
use crate::phc::{Output, ParamsString, PasswordHash, Salt};
use arrayvec::ArrayString;
use base64::engine::general_purpose::STANDARD_NO_PAD;
use itoa::Buffer;
use std::{fmt, str};

/// The capacity of a text, enough for every hash. The algorithm has at most 33 bytes with its `$`,
/// the version 43, the parameters 128, and the salt and the key 87 each.
const CAPACITY: usize = 378;

impl PasswordHash {
    /// Returns the text that the hash is printed as. Does not allocate.
    pub fn to_array_string(&self) -> ArrayString<378>
        ensures value { result.bytes ≡ hash_text self.now }
    {
        let mut text = ArrayString::new();
        push_part(&mut text, self.algorithm.as_str());
        push_version(&mut text, self.version);
        push_params(&mut text, &self.params);
        if let Some(salt) = &self.salt {
            push_salt_and_key(&mut text, salt, &self.hash);
        }
        text
    }
}

impl fmt::Display for PasswordHash {
    ghost use Rattle.std.specs.Prelude.{Some};
    ghost use Rattle.password_hash.specs.Phc.{hash_text};

    ghost output = { λ hash. Some (hash_text hash) };

    fn fmt<W: fmt::Write>(&self, f: &mut fmt::Formatter<W>) -> fmt::Result {
        f.write_str(self.to_array_string().as_str())
    }
}

/// Appends the version, if there is one.
fn push_version(text: &mut ArrayString<CAPACITY>, version: Option<Version>)
    requires room { array_string_len text.old + 43 ≤ 378 }
    ensures value { text.new.bytes ≡ text.old.bytes ++ parts_text (version_part version) }
    ensures short { array_string_len text.new ≤ array_string_len text.old + 43 }
{
    if let Some(version) = version {
        text.push_str("$v=");
        text.push_str(Buffer::new().format(version));
    }
}

/// Appends the parameters, if there are any.
fn push_params(text: &mut ArrayString<CAPACITY>, params: &ParamsString)
    requires room { array_string_len text.old + 128 ≤ 378 }
    ensures value { text.new.bytes ≡ text.old.bytes ++ parts_text (params_part params.now) }
    ensures short { array_string_len text.new ≤ array_string_len text.old + 128 }
{
    let params = params.as_str();
    if !params.is_empty() {
        push_part(text, params);
    }
}

/// Appends the salt, and after it the key, if there is one.
fn push_salt_and_key(text: &mut ArrayString<CAPACITY>, salt: &Salt, key: &Option<Output>)
    requires room { array_string_len text.old + 174 ≤ 378 }
    ensures value { text.new.bytes ≡ text.old.bytes ++ parts_text (salt_and_key_parts (Some salt.now) key.now) }
{
    push_letters(text, salt.as_bytes());
    if let Some(key) = key {
        push_letters(text, key.as_bytes());
    }
}

/// Appends `$` and the Base64 of `bytes`.
fn push_letters(text: &mut ArrayString<CAPACITY>, bytes: &[u8])
    requires short { length bytes.now ≤ 64 }
    requires room { array_string_len text.old + 87 ≤ 378 }
    ensures value { text.new.bytes ≡ text.old.bytes ++ dollar ∷ base64 bytes.now }
    ensures short { array_string_len text.new ≤ array_string_len text.old + 87 }
{
    let mut places = [0; 86];
    let Ok(len) = STANDARD_NO_PAD.encode_slice(bytes, &mut places) else {
        unreachable!();
    };
    let Ok(letters) = str::from_utf8(&places[..len]) else {
        unreachable!();
    };
    push_part(text, letters);
}

/// Appends `$` and a part.
fn push_part(text: &mut ArrayString<CAPACITY>, part: &str)
    requires room { array_string_len text.old + 1 + length part.now ≤ 378 }
    ensures value { text.new.bytes ≡ text.old.bytes ++ dollar ∷ part.now }
{
    text.push_str("$");
    text.push_str(part);
}
