// Making `$7$` hashes.

ghost use Rattle.std.specs.Prelude.{◌≡◌, ◌↔◌, ◌⊎◌, ◌+◌, ◌++◌, ◌<◌, ◌&&◌, true, nat_le, ℕ, List, if◌then◌else◌, Ok, Err, drop, length, IfOk, IfErr, take, IsErrOf, OnErr, OnOk, IsTrue, IsAscii};
ghost use Rattle.std.specs.Str.{IsUtf8};
ghost use Rattle.scrypt.specs.Terms.{AreCompressed, AreCounted, IsCopiedTo, IsDone, IsField, IsMcf, IsReady, IsSpent};
ghost use Rattle.scrypt.specs.Terms.{IsTextOfKey, are_enough, cost_by, crypt64_of, encoded_len, hash_cost};
ghost use Rattle.scrypt.specs.Terms.{is_output_len, key_len_or_default, made_mcf, made_text_len, mcf_text};
ghost use Rattle.scrypt.specs.Terms.{params_text, parts_of_key, workspace_of};
ghost use Rattle.password_hash.specs.declared.error.Error.TheVariants.{OutOfMemory, OutputSize, SaltInvalid};
ghost use Rattle.scrypt.specs.declared.errors.LimitedError.TheVariants.{BufferTooShort, Hash};

use crate::buffers::memory::{ActiveBuffers, Allocation, with_prefix};
use crate::hashing::stored_key;
use crate::mcf::five_letters::five_letters;
use crate::{Backend, CoreCount, LimitedError, Params, output_len_ok};
use password_hash::mcf::alphabet::letter;
use password_hash::mcf::{Base64, PasswordHash};
use password_hash::{Error, Result};
use scrypt_kernel::memory::{Allocated, Buffer, TableMemory};
use std::alloc::Global;

// The number of bytes before the salt: `$7$` and the eleven letters of the parameters.
const PARAMS_LEN: usize = 14;

/// Hashes `password` as [`Scrypt`](crate::Scrypt) does with these parameters, by the backend `W`.
/// Counts the `4 * N * r * p` cores and the blocks that SHA-256 compresses.
///
/// Returns `OutOfMemory` if an allocation fails, and then the count is unchanged.
#[tactic(auto, using(crate::proofs::KeyFacts::lengths))]
pub fn hash<W: Backend>(
    alloc: Global,
    password: &[u8],
    salt: &[u8],
    params: &Params,
    cores: &mut CoreCount,
) -> Result<PasswordHash>
    ensures value { IfOk result (λ text. text ≡ made_mcf params.now password.now salt.now) }
    ensures counted { OnOk result (AreCounted (cost_by params.now) cores.old cores.new) }
    ensures hashed { OnOk result (AreCompressed (hash_cost (length password.now) (length (crypt64_of salt.now))
        params.now.r params.now.p (key_len_or_default params.now)) cores.old cores.new) }
    ensures memory { IfErr result (λ e. e ≡ OutOfMemory) }
    ensures uncounted { OnErr result (cores.new ≡ cores.old) }
{
    // The whole text is allocated before the buffers of the derivation.
    let mut text = vec![in alloc; 0u8; hash_len(params, salt)]?;
    // A limit of 0 bytes selects one table.
    let (w, mut own) = Allocation::allocate_within(alloc, params, 0)?;
    let mut used = ActiveBuffers::new(w, &mut own.chunks, &mut own.table, &mut own.scratch, cores);
    fill_with_hash::<Allocated, W>(password, salt, params, &mut text, &mut used);
    Ok(hash_of_text(text))
}

/// Returns the length in bytes of the text that hashing with these parameters and this salt makes.
#[tactic(auto, using(crate::proofs::McfTextFacts::made_mcf_len))]
pub fn hash_len(params: &Params, salt: &[u8]) -> usize
    ensures value { result ≡ made_text_len params.now (length salt.now) }
    ensures made { (password : List ℕ) → length (made_mcf params.now password salt.now) ≡ result }
{
    params.expose_invariant();
    PARAMS_LEN
        + Base64::Crypt.encoded_len(salt.len())
        + (1 + Base64::Crypt.encoded_len(params.key_len_or_default()))
}

// Returns `$7$` and the eleven letters of the parameters.
#[tactic(auto, unfolding(password_hash::specs::Crypt64::letters_of))]
fn params_letters(params: &Params) -> [u8; PARAMS_LEN]
    ensures { result ≡ params_text params.now }
{
    let mut letters = *b"$7$...........";
    letters[3] = letter(u32::from(params.log_n()));
    letters[4..9].copy_from_slice(&five_letters(params.r()));
    letters[9..].copy_from_slice(&five_letters(params.p()));
    letters
}

// Writes the letters that encode `bytes`, which fill `out`.
#[tactic(auto, using(password_hash::proofs::GroupFacts::lengths))]
fn encode(bytes: &[u8], out: &mut [u8])
    requires { length out.old ≡ encoded_len (length bytes.now) }
    ensures { out.new ≡ crypt64_of bytes.now }
{
    let Ok(_) = Base64::Crypt.encode_slice(bytes, out) else {
        unreachable!();
    };
}

// Returns the hash with this text.
#[tactic(auto, using(crate::proofs::McfTextFacts::ascii_texts))]
fn hash_of_text(text: Vec<u8>) -> PasswordHash
    requires ascii { IsAscii text.items }
    requires modular { IsMcf text.items }
    ensures { result ≡ text.items }
{
    PasswordHash::from_string(String::from_utf8(text).unwrap()).unwrap()
}

/// Hashes `password` as `Scrypt::hash_password_with_params` does, in the caller's buffers. Writes
/// the text of the hash to the front of `text`, and returns its length. Does not allocate.
///
/// `text` is at least as long as [`hash_len`](crate::mcf::hash_len) returns, and each other buffer
/// as [`BufferLens::of`](crate::BufferLens::of) returns for `params`. These other buffers and the
/// count are used and left as
/// [`StoredHash::verify_with_buffers`](crate::StoredHash::verify_with_buffers) uses and leaves
/// them.
///
/// Returns `BufferTooShort` exactly if `text` or another buffer is too short, and then changes
/// nothing.
#[tactic(auto, using(std::proofs::lemmas::Bool::Decides::nat_tests))]
pub fn hash_with_buffers<W: Backend>(
    password: &[u8],
    salt: &[u8],
    params: &Params,
    text: &mut [u8],
    chunks: &mut [u8],
    table: &mut [u32],
    scratch: &mut [u32],
    cores: &mut CoreCount,
) -> std::result::Result<usize, LimitedError>
    ensures len { result ≡ if nat_le (made_text_len params.now (length salt.now)) (length text.old)
        && are_enough params.now chunks.old table.old scratch.old
        then Ok (made_text_len params.now (length salt.now)) else Err BufferTooShort }
    ensures made { IfOk result (λ len. text.new ≡ made_mcf params.now password.now salt.now ++ drop len text.old) }
    ensures ascii { IfOk result (λ len. IsAscii (take len text.new)) }
    ensures unwritten { OnErr result (text.new ≡ text.old) }
    ensures done { OnOk result (IsDone params.now (workspace_of chunks.old table.old scratch.old)
        (workspace_of chunks.new table.new scratch.new)) }
    ensures counted { OnOk result (AreCounted (cost_by params.now) cores.old cores.new) }
    ensures hashed { OnOk result (AreCompressed (hash_cost (length password.now)
        (length (crypt64_of salt.now)) params.now.r params.now.p (key_len_or_default params.now)) cores.old cores.new) }
    ensures unchanged { OnErr result (workspace_of chunks.new table.new scratch.new
        ≡ workspace_of chunks.old table.old scratch.old) }
    ensures uncounted { OnErr result (cores.new ≡ cores.old) }
{
    let len = hash_len(params, salt);
    if text.len() < len {
        return Err(LimitedError::BufferTooShort);
    }
    params.expose_invariant();
    let fill = |used: &mut ActiveBuffers<'_, Buffer<'_>>, text: &mut [u8]| {
        fill_with_hash::<Buffer<'_>, W>(password, salt, params, text, used)
    };
    let (p, text) = (params.p(), &mut text[..len]);
    let made = with_prefix(params, p, chunks, table, scratch, cores, text, fill);
    made.ok_or(LimitedError::BufferTooShort)?;
    Ok(len)
}

// Hashes a password, in any memory. The text fills `text`. Afterwards the chunks and the scratch are
// zeros.
#[tactic(auto, using(crate::proofs::McfTextFacts::whole_texts))]
fn fill_with_hash<M: TableMemory, W: Backend>(
    password: &[u8],
    salt: &[u8],
    params: &Params,
    text: &mut [u8],
    used: &mut ActiveBuffers<'_, M>,
)
    requires len { length text.old ≡ made_text_len params.now (length salt.now) }
    requires ready { IsReady M.room params.now.log_n 0 params.now.r params.now.p used.old }
    ensures made { text.new ≡ made_mcf params.now password.now salt.now }
    ensures ascii { IsAscii text.new }
    ensures modular { IsMcf text.new }
    ensures spent { IsSpent M.room used.old used.new }
    ensures counted { AreCounted (cost_by params.now) used.old.cores.now used.new.cores.now }
    ensures hashed { AreCompressed (hash_cost (length password.now) (length (crypt64_of salt.now))
        params.now.r params.now.p (key_len_or_default params.now)) used.old.cores.now used.new.cores.now }
{
    params.expose_invariant();
    let (front, rest) = text.split_at_mut(PARAMS_LEN);
    front.copy_from_slice(&params_letters(params));
    // The letters of the salt are the salt of the derivation.
    let (letters, rest) = rest.split_at_mut(Base64::Crypt.encoded_len(salt.len()));
    encode(salt, letters);
    let key = stored_key::<M, W>(password, letters, params, used);
    let (sign, last) = rest.split_at_mut(1);
    sign.copy_from_slice(b"$");
    encode(key.as_bytes(), last);
}

/// Writes the text of the hash of this salt and this key, which any program has derived with these
/// parameters, to the front of `text`, and returns its length. The salt is that of the derivation,
/// and stands in the text as it is. The length in `params` is ignored. Does not allocate.
///
/// Returns the first of these errors, and then changes nothing: `SaltInvalid` if `salt` has a `$`,
/// `OutputSize` if the length of `key` is not allowed, and `BufferTooShort` if `text` is too short.
pub fn write_hash_of_key(
    params: &Params,
    salt: &str,
    key: &[u8],
    text: &mut [u8],
) -> std::result::Result<usize, LimitedError>
    ensures read { IfOk result (IsCopiedTo
        (λ made. IsUtf8 made × IsTextOfKey true params.now salt.now key.now made) text.old text.new) }
    ensures salt { IsErrOf result (Hash SaltInvalid) ↔ (¬ IsField salt.now) }
    ensures key { IsErrOf result (Hash OutputSize) ↔ (IsField salt.now × ¬ IsTrue (is_output_len (length key.now))) }
    ensures short { IsErrOf result BufferTooShort → (made : List ℕ)
        × IsTextOfKey true params.now salt.now key.now made × (length text.old < length made) }
    ensures err { IfErr result (λ e. (e ≡ Hash SaltInvalid) ⊎ (e ≡ Hash OutputSize) ⊎ (e ≡ BufferTooShort)) }
    ensures refused { OnErr result (text.new ≡ text.old) }
{
    params.expose_invariant();
    if salt.as_bytes().contains(&b'$') {
        return Err(LimitedError::Hash(Error::SaltInvalid));
    }
    if !output_len_ok(key.len()) {
        return Err(LimitedError::Hash(Error::OutputSize));
    }
    let around = PARAMS_LEN + 1 + Base64::Crypt.encoded_len(key.len());
    let len = around.saturating_add(salt.len());
    if len > text.len() {
        return Err(LimitedError::BufferTooShort);
    }
    write_parts(&mut text[..len], params, salt.as_bytes(), key);
    Ok(len)
}

// Writes the text of these parts, which fills `out`.
fn write_parts(out: &mut [u8], params: &Params, salt: &[u8], key: &[u8])
    requires { length out.old ≡ 14 + length salt.now + (1 + encoded_len (length key.now)) }
    ensures { out.new ≡ mcf_text (parts_of_key params.now salt.now key.now) }
{
    let (front, rest) = out.split_at_mut(PARAMS_LEN);
    front.copy_from_slice(&params_letters(params));
    let (field, rest) = rest.split_at_mut(salt.len());
    field.copy_from_slice(salt);
    let (sign, last) = rest.split_at_mut(1);
    sign.copy_from_slice(b"$");
    encode(key, last);
}
