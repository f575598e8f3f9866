//! Laws of the C calls: what their clauses say together. Each function does nothing at run time: its
//! contract is the law.

ghost use Rattle.std.specs.Prelude.{◌≡◌, ◌≢◌, ◌⊎◌, ℕ, ℤ, ◌*◌, ◌^◌, ◌≤◌, All, Bool, IsTrue, List, length, take};
ghost use Rattle.scrypt.specs.Terms.{IsSalt, IsUnderWay, are_accepted, chunks_bytes, crypt64_of, derived_key, hash_text};
ghost use Rattle.scrypt.specs.Terms.{is_output_len, made_mcf, made_phc};
ghost use Rattle.scrypt_c.specs.{Admit, AreHashParams, HasBegun, HasFinished, IsBegun, IsVerifyStatus, IsWritten, Kept};
ghost use Rattle.scrypt_c.specs.{Session, limited_reading, params_of, wanted};

use crate::statuses::{MISMATCH, OK, OUT_OF_MEMORY};

/// A hash that [`scrypt_hash_phc`](crate::hashes::scrypt_hash_phc) or
/// [`scrypt_hash_mcf`](crate::hashes::scrypt_hash_mcf) (`right_mcf`, `wrong_mcf`) wrote, in
/// allocated memory or in the caller's buffers, is verified by
/// [`scrypt_verify_limited`](crate::hashes::scrypt_verify_limited), within limits that admit it,
/// with `OK` for its password, and with `MISMATCH` for a password with another key; or an
/// allocation fails.
pub fn written_hashes_are_verified()
    ensures right { (password salt old new : List ℕ) (log_n r p key_len len max_mem max_work min_key_len : ℕ)
        (status : ℤ) → AreHashParams log_n r p key_len → IsSalt salt
        → IsWritten (hash_text (made_phc (wanted log_n r p key_len) password salt)) old new len
        → Admit max_mem max_work min_key_len log_n r p key_len
        → IsVerifyStatus password (limited_reading max_mem max_work min_key_len (take len new)) status
        → (status ≡ OK) ⊎ (status ≡ OUT_OF_MEMORY) }
    ensures wrong { (password salt other old new : List ℕ) (log_n r p key_len len max_mem max_work min_key_len : ℕ)
        (status : ℤ) → AreHashParams log_n r p key_len → IsSalt salt
        → derived_key other salt log_n r p key_len ≢ derived_key password salt log_n r p key_len
        → IsWritten (hash_text (made_phc (wanted log_n r p key_len) password salt)) old new len
        → Admit max_mem max_work min_key_len log_n r p key_len
        → IsVerifyStatus other (limited_reading max_mem max_work min_key_len (take len new)) status
        → (status ≡ MISMATCH) ⊎ (status ≡ OUT_OF_MEMORY) }
    ensures right_mcf { (password salt old new : List ℕ) (log_n r p key_len len max_mem max_work min_key_len : ℕ)
        (status : ℤ) → AreHashParams log_n r p key_len
        → IsWritten (made_mcf (wanted log_n r p key_len) password salt) old new len
        → Admit max_mem max_work min_key_len log_n r p key_len
        → IsVerifyStatus password (limited_reading max_mem max_work min_key_len (take len new)) status
        → (status ≡ OK) ⊎ (status ≡ OUT_OF_MEMORY) }
    ensures wrong_mcf { (password salt other old new : List ℕ) (log_n r p key_len len max_mem max_work min_key_len : ℕ)
        (status : ℤ) → AreHashParams log_n r p key_len
        → derived_key other (crypt64_of salt) log_n r p key_len
        ≢ derived_key password (crypt64_of salt) log_n r p key_len
        → IsWritten (made_mcf (wanted log_n r p key_len) password salt) old new len
        → Admit max_mem max_work min_key_len log_n r p key_len
        → IsVerifyStatus other (limited_reading max_mem max_work min_key_len (take len new)) status
        → (status ≡ MISMATCH) ⊎ (status ≡ OUT_OF_MEMORY) }
{}

/// A key in steps ends, and ends right. Between [`scrypt_key_begin`](crate::in_steps::scrypt_key_begin)
/// and [`scrypt_key_finish`](crate::in_steps::scrypt_key_finish) the buffers and the progress are
/// untouched except by [`scrypt_key_step`](crate::in_steps::scrypt_key_step), whose counts may
/// differ. Then each step succeeds. If each does at least `least` mixes, of the `2^(log_n + 1)` of a
/// chunk, then `p` times the steps of one chunk mix all (`mixed`), and the last call writes the key
/// (`key`). By `mixed`, [`scrypt_verify_finish`](crate::verify_in_steps::scrypt_verify_finish)
/// returns the verdict too.
pub fn steps_end_with_the_key()
    ensures succeed { (most : ℕ) (scalar : Bool) (password salt : List ℕ) (log_n r p : ℕ) (steps : List (ℕ × ℤ))
        (begun ended : Kept) → IsTrue (are_accepted log_n r p)
        → IsBegun most scalar password salt (params_of log_n r p) begun.at begun.chunks begun.table begun.scratch
        → Session most scalar log_n r p begun steps ended → All (λ (step : ℕ × ℤ). step.1 ≡ OK) steps }
    ensures mixed { (most : ℕ) (scalar : Bool) (password salt : List ℕ) (log_n r p least each : ℕ)
        (steps : List (ℕ × ℤ)) (begun ended : Kept) → IsTrue (are_accepted log_n r p)
        → IsBegun most scalar password salt (params_of log_n r p) begun.at begun.chunks begun.table begun.scratch
        → Session most scalar log_n r p begun steps ended → All (λ (step : ℕ × ℤ). least ≤ step.0) steps
        → 2 * 2 ^ log_n ≤ least * each → p * each ≤ length steps
        → (ended.at.chunks ≡ p) × (length ended.chunks ≡ chunks_bytes r p)
        × IsUnderWay password salt (params_of log_n r p) ended.at ended.chunks ended.table ended.scratch }
    ensures key { (most : ℕ) (scalar : Bool) (password salt output key : List ℕ) (log_n r p least each : ℕ)
        (steps : List (ℕ × ℤ)) (old begun ended : Kept) (status : ℤ)
        → HasBegun most scalar password salt log_n r p old begun OK
        → Session most scalar log_n r p begun steps ended → All (λ (step : ℕ × ℤ). least ≤ step.0) steps
        → 2 * 2 ^ log_n ≤ least * each → p * each ≤ length steps
        → HasFinished password log_n r p ended.chunks ended.at output key status
        → IsTrue (is_output_len (length output))
        → (status ≡ OK) × (key ≡ derived_key password salt log_n r p (length output)) }
{}
