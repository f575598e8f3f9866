//! The texts of salts and keys that other programs derived.

ghost use Rattle.std.specs.Prelude.{◌≡◌, ◌≢◌, ◌↔◌, ◌⊎◌, ◌<◌, ℕ, List, false, true, length, Some, IsTrue};
ghost use Rattle.std.specs.Str.{IsUtf8};
ghost use Rattle.scrypt.specs.Terms.{IsField, IsTextOfKey, are_accepted, is_output_len, is_salt_len, is_stored_len};
ghost use Rattle.scrypt_c.specs.{IsTooLong, IsWrittenTo, params_of};

use crate::statuses::{BUFFER_SIZE, INVALID_OUTPUT_LEN, INVALID_PARAMS, OK, SALT_INVALID};
use crate::texts::copy_to;
use password_hash::Error;
use scrypt::{LimitedError, Params, mcf, phc};

/// Writes the PHC string of this salt and this key, which any program has derived with these
/// parameters, to the start of `text`, and its length to `text_len`. Nothing is allocated.
///
/// Returns `OK`, or the first of these: `INVALID_PARAMS` unless `log_n`, `r` and `p` are accepted;
/// `SALT_INVALID` unless the salt has 1 to 64 bytes; `INVALID_OUTPUT_LEN` unless the key has 10 to
/// 64; and `BUFFER_SIZE` if the text is longer than `text`, and then `text_len` is its length. On
/// an error `text` is unchanged, and on any but `BUFFER_SIZE` so is `text_len`.
#[unsafe(no_mangle)]
pub extern "C" fn scrypt_stored_phc(
    salt: &[u8],
    key: &[u8],
    log_n: u8,
    r: u32,
    p: u32,
    text: &mut [u8],
    text_len: &mut usize,
) -> i32
    ensures read { result ≡ OK
        → IsWrittenTo (IsTextOfKey false (params_of log_n r p) salt.now key.now) text.old text.new text_len.new }
    ensures params { (result ≡ INVALID_PARAMS) ↔ (¬ IsTrue (are_accepted log_n r p)) }
    ensures salt { (result ≡ SALT_INVALID)
        ↔ (IsTrue (are_accepted log_n r p) × ¬ IsTrue (is_salt_len (length salt.now))) }
    ensures key { (result ≡ INVALID_OUTPUT_LEN)
        ↔ (IsTrue (are_accepted log_n r p) × IsTrue (is_salt_len (length salt.now))
        × ¬ IsTrue (is_stored_len (Some (length key.now)))) }
    ensures size { result ≡ BUFFER_SIZE → (made : List ℕ)
        × IsTextOfKey false (params_of log_n r p) salt.now key.now made × IsTooLong made text.old text_len.new }
    ensures status { (result ≡ OK) ⊎ (result ≡ INVALID_PARAMS) ⊎ (result ≡ SALT_INVALID)
        ⊎ (result ≡ INVALID_OUTPUT_LEN) ⊎ (result ≡ BUFFER_SIZE) }
    ensures refused { result ≢ OK → text.new ≡ text.old }
    ensures unchanged { result ≢ OK → result ≢ BUFFER_SIZE → text_len.new ≡ text_len.old }
{
    let Ok(params) = Params::new(log_n, r, p) else {
        return INVALID_PARAMS;
    };
    match phc::hash_of_key(&params, salt, key) {
        Ok(hash) => copy_to(hash.to_array_string().as_str(), text, text_len),
        Err(Error::SaltInvalid) => SALT_INVALID,
        Err(_) => INVALID_OUTPUT_LEN,
    }
}

/// Writes the `$7$` hash of this salt and this key, which any program has derived with these
/// parameters, to the start of `text`, and its length to `text_len`. The salt stands in the text as
/// it is. Nothing is allocated.
///
/// Returns `OK`, or the first of these: `INVALID_PARAMS` unless `log_n`, `r` and `p` are accepted;
/// `SALT_INVALID` unless the salt is UTF-8 without a `$`; `INVALID_OUTPUT_LEN` unless the key has 1
/// to 137438953440 bytes; and `BUFFER_SIZE` if the text is longer than `text`. On an error `text`
/// and `text_len` are unchanged.
#[unsafe(no_mangle)]
pub extern "C" fn scrypt_stored_mcf(
    salt: &[u8],
    key: &[u8],
    log_n: u8,
    r: u32,
    p: u32,
    text: &mut [u8],
    text_len: &mut usize,
) -> i32
    ensures read { result ≡ OK
        → IsWrittenTo (IsTextOfKey true (params_of log_n r p) salt.now key.now) text.old text.new text_len.new }
    ensures params { (result ≡ INVALID_PARAMS) ↔ (¬ IsTrue (are_accepted log_n r p)) }
    ensures salt { (result ≡ SALT_INVALID)
        ↔ (IsTrue (are_accepted log_n r p) × ¬ (IsUtf8 salt.now × IsField salt.now)) }
    ensures key { (result ≡ INVALID_OUTPUT_LEN)
        ↔ (IsTrue (are_accepted log_n r p) × (IsUtf8 salt.now × IsField salt.now)
        × ¬ IsTrue (is_output_len (length key.now))) }
    ensures size { result ≡ BUFFER_SIZE → (made : List ℕ)
        × IsTextOfKey true (params_of log_n r p) salt.now key.now made × (length text.old < length made) }
    ensures status { (result ≡ OK) ⊎ (result ≡ INVALID_PARAMS) ⊎ (result ≡ SALT_INVALID)
        ⊎ (result ≡ INVALID_OUTPUT_LEN) ⊎ (result ≡ BUFFER_SIZE) }
    ensures refused { result ≢ OK → (text.new ≡ text.old) × (text_len.new ≡ text_len.old) }
{
    let Ok(params) = Params::new(log_n, r, p) else {
        return INVALID_PARAMS;
    };
    let Ok(letters) = std::str::from_utf8(salt) else {
        return SALT_INVALID;
    };
    match mcf::write_hash_of_key(&params, letters, key, text) {
        Ok(len) => {
            *text_len = len;
            OK
        }
        Err(LimitedError::Hash(Error::SaltInvalid)) => SALT_INVALID,
        Err(LimitedError::Hash(Error::OutputSize)) => INVALID_OUTPUT_LEN,
        Err(_) => BUFFER_SIZE,
    }
}
