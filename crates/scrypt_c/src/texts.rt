// The texts of hashes: read from the caller's bytes, and copied to the caller's buffer.

ghost use Rattle.std.specs.Prelude.{◌≡◌, ◌≢◌, ◌↔◌, ◌⊎◌, ◌≤◌, length, IfErr, IfOk, IsOk};
ghost use Rattle.password_hash.specs.declared.error.Error.TheVariants.{EncodingInvalid};
ghost use Rattle.scrypt.specs.Terms.{◌and_then◌, mapped, params_reading, reading, with_limited_refusal, with_refusal};
ghost use Rattle.scrypt_c.specs.{IsWritten, bytes_params, bytes_reading, limited_reading};

use crate::statuses::{BUFFER_SIZE, OK};
use password_hash::{Error, Result};
use scrypt::laws::parameters_are_those_of_the_reading;
use scrypt::{LimitedError, Limits, Params, Size, StoredHash};

/// Reads the text of a hash.
///
/// Returns `EncodingInvalid` if the bytes are not UTF-8 or the text does not match its format.
#[tactic(auto, using(crate::proofs::TextFacts::texts))]
pub fn stored_hash(bytes: &[u8]) -> Result<StoredHash<'_>>
    ensures reading { bytes_reading bytes.now ≡ with_refusal result and_then reading }
    ensures params { bytes_params bytes.now ≡ with_refusal result and_then params_reading }
    ensures err { IfErr result (λ e. e ≡ EncodingInvalid) }
{
    match std::str::from_utf8(bytes) {
        Ok(text) => StoredHash::read(text),
        Err(_) => Err(Error::EncodingInvalid),
    }
}

/// Reads the text of a hash that is within the limits.
pub fn limited_hash(
    bytes: &[u8],
    max_mem: Size,
    max_work: u64,
    min_key_len: usize,
) -> std::result::Result<StoredHash<'_>, LimitedError>
    ensures reading { limited_reading max_mem max_work min_key_len bytes.now
        ≡ with_limited_refusal result and_then reading }
    ensures read { IfOk result (λ hash. IsOk (reading hash) × (bytes_reading bytes.now ≡ reading hash)) }
{
    let hash = match stored_hash(bytes) {
        Ok(hash) => hash,
        Err(error) => return Err(LimitedError::Hash(error)),
    };
    let limits = Limits {
        max_mem,
        max_work,
        min_key_len,
    };
    if let Err(error) = hash.within(&limits) {
        return Err(error);
    }
    Ok(hash)
}

/// Returns the parameters of a hash that has a salt and a key, and the length of the key, or the
/// error of reading it.
pub fn whole_params(hash: &StoredHash<'_>) -> Result<(Params, usize)>
    ensures value { with_refusal result ≡ mapped (λ s. (s.params, length s.key)) (reading hash.now) }
{
    parameters_are_those_of_the_reading();
    match hash.salt() {
        Ok(_) => hash.params_and_key_len(),
        Err(error) => Err(error),
    }
}

/// Copies a text to the start of the caller's buffer, if it fits, and writes its length.
pub fn copy_to(text: &str, buffer: &mut [u8], text_len: &mut usize) -> i32
    ensures ok { (result ≡ OK) ↔ (length text.now ≤ length buffer.old) }
    ensures status { (result ≡ OK) ⊎ (result ≡ BUFFER_SIZE) }
    ensures written { result ≡ OK → IsWritten text.now buffer.old buffer.new text_len.new }
    ensures refused { result ≢ OK → buffer.new ≡ buffer.old }
    ensures len { text_len.new ≡ length text.now }
{
    let len = text.len();
    *text_len = len;
    if buffer.len() < len {
        return BUFFER_SIZE;
    }
    buffer[..len].copy_from_slice(text.as_bytes());
    OK
}
