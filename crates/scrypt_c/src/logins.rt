//! Several logins, verified together in the caller's buffers; nothing is allocated.

ghost use Rattle.std.specs.Prelude.{◌≡◌, [], ◌∷◌};
ghost use Rattle.scrypt.specs.Terms.{◌and_then◌, attempt_of, attempts, decoy_reading, with_refusal, workspace_of};
ghost use Rattle.scrypt_c.specs.{AreVerified, IsWorkOn, batch_of, login_attempt, wanted};

use crate::statuses::limited_verdict_status;
use crate::texts::stored_hash;
use password_hash::{Error, Result};
use scrypt::{CoreCount, Decoy, LimitedError, Login, LoginHash, Params, Target, verify_logins};

/// Verifies up to four passwords, each against its own hash and with its own verdict, in the
/// caller's buffers. If there are fewer, pass empty texts for the last ones: an empty text is
/// rejected without deriving a key.
///
/// A login whose `unknown` is not 0 is verified against a decoy in place of its text: a decoy for
/// hashes with these parameters, this length of the key and a salt as long as `salt`.
///
/// Writes to each status what `scrypt_verify_limited_with_buffers` returns, without limits, for
/// that password and hash in these buffers, whatever the others are. For a decoy this is
/// `MISMATCH`, or `BUFFER_SIZE`, or `HASH_PARAMS_INVALID` if no new hash has these parameters.
///
/// All keys are derived in one batch if all hashes that are not rejected have the same `log_n` and
/// `r` as the first of them, and each buffer is long enough for one derivation with the chunks of
/// all: up to four chunks are then interleaved, one for each table and scratch. Otherwise the first
/// is verified on its own, and the rest are tried in the same way.
#[unsafe(no_mangle)]
pub extern "C" fn scrypt_verify_batch_with_buffers<'a>(
    password: &'a [u8],
    text: &'a [u8],
    unknown: u8,
    password_2: &'a [u8],
    text_2: &'a [u8],
    unknown_2: u8,
    password_3: &'a [u8],
    text_3: &'a [u8],
    unknown_3: u8,
    password_4: &'a [u8],
    text_4: &'a [u8],
    unknown_4: u8,
    salt: &'a [u8],
    log_n: u8,
    r: u32,
    p: u32,
    key_len: usize,
    statuses: &mut [i32; 4],
    chunks: &mut [u8],
    table: &mut [u32],
    scratch: &mut [u32],
)
    ensures verified { AreVerified (batch_of (decoy_reading (wanted log_n r p key_len) salt.now)
        ((password.now, text.now, unknown) ∷ (password_2.now, text_2.now, unknown_2)
        ∷ (password_3.now, text_3.now, unknown_3) ∷ (password_4.now, text_4.now, unknown_4) ∷ []))
        (workspace_of chunks.old table.old scratch.old) (workspace_of chunks.new table.new scratch.new) statuses.new }
{
    let logins = [
        login(password, text, unknown, salt, log_n, r, p, key_len),
        login(password_2, text_2, unknown_2, salt, log_n, r, p, key_len),
        login(password_3, text_3, unknown_3, salt, log_n, r, p, key_len),
        login(password_4, text_4, unknown_4, salt, log_n, r, p, key_len),
    ];
    let cores = &mut CoreCount::new();
    verify_batch_with_buffers(&logins, statuses, chunks, table, scratch, cores);
}

/// Does what [`scrypt_verify_batch_with_buffers`] does for these logins, and counts its cores and the
/// blocks that SHA-256 compresses: for a decoy as many as for a hash with its parameters.
pub fn verify_batch_with_buffers(
    logins: &[Login<'_, '_>; 4],
    statuses: &mut [i32; 4],
    chunks: &mut [u8],
    table: &mut [u32],
    scratch: &mut [u32],
    cores: &mut CoreCount,
)
    ensures verified { AreVerified (attempts logins.now) (workspace_of chunks.old table.old scratch.old)
        (workspace_of chunks.new table.new scratch.new) statuses.new }
    ensures work { IsWorkOn (attempts logins.now) (workspace_of chunks.old table.old scratch.old) cores.old cores.new }
{
    // Initialized to a mismatch, so that no entry accepts a password before its keys are compared.
    let mut verdicts = [Err(LimitedError::Hash(Error::PasswordInvalid)); 4];
    verify_logins::<Target>(logins, &mut verdicts, chunks, table, scratch, cores);
    let [a, b, c, d] = verdicts;
    *statuses = [
        limited_verdict_status(a),
        limited_verdict_status(b),
        limited_verdict_status(c),
        limited_verdict_status(d),
    ];
}

// Returns the decoy of these parameters, or `ParamsInvalid` if no new hash can have them.
#[tactic(auto, using(crate::proofs::InBuffersFacts::none_decoy))]
fn decoy<'t>(salt: &'t [u8], log_n: u8, r: u32, p: u32, key_len: usize) -> Result<Decoy<'t>>
    ensures reading { with_refusal result and_then (λ d. decoy_reading d.0 d.1)
        ≡ decoy_reading (wanted log_n r p key_len) salt.now }
{
    match Params::new_with_output_len(log_n, r, p, key_len) {
        Ok(params) => Ok(Decoy::with_salt(&params, salt)),
        Err(_) => Err(Error::ParamsInvalid),
    }
}

/// Reads the hash that a password is verified against, unless it is a decoy.
pub fn login<'p, 't>(
    password: &'p [u8],
    text: &'t [u8],
    unknown: u8,
    salt: &'t [u8],
    log_n: u8,
    r: u32,
    p: u32,
    key_len: usize,
) -> Login<'p, 't>
    ensures attempt { attempt_of result ≡ login_attempt (decoy_reading (wanted log_n r p key_len) salt.now)
        password.now text.now unknown }
{
    let hash = if unknown == 0 {
        match stored_hash(text) {
            Ok(hash) => Ok(LoginHash::Stored(hash)),
            Err(error) => Err(LimitedError::Hash(error)),
        }
    } else {
        match decoy(salt, log_n, r, p, key_len) {
            Ok(decoy) => Ok(LoginHash::Decoy(decoy)),
            Err(error) => Err(LimitedError::Hash(error)),
        }
    };
    Login { password, hash }
}
