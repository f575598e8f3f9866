//! Laws of the definitions. Each function does nothing at run time: its contract is the law.

ghost use Rattle.std.specs.Prelude.{◌≡◌, ◌≢◌, ◌⊎◌, ◌↔◌, true, false, ℕ, ◌+◌, ◌-◌, ◌*◌, ◌/◌, ◌%◌, ◌^◌, ◌<◌, ◌≤◌, List, [], ◌∷◌, ◌++◌, IsTrue, length, map, sum_by, take, Result, Ok, Err, IsOk, IsSome, Some, All};
ghost use Rattle.std.specs.List.{flat_map, range_with_len};
ghost use Rattle.sha2.specs.Sha256.{sha256};
ghost use Rattle.scrypt.specs.Terms.{AreFor, AreLeft, AreSameAfter, Attempt, Crypt64, EncodingInvalid, IsDerived};
ghost use Rattle.scrypt.specs.Terms.{IsHashText, IsLeft, IsMcfHashText, IsMcfText, IsOfText, IsReadAsMade, IsSalt};
ghost use Rattle.scrypt.specs.Terms.{IsUnderWay, NamesEachOnce, NamesNoPassword, Parameters, PasswordInvalid, Refusal};
ghost use Rattle.scrypt.specs.Terms.{Stored, SufficeFor, Workspace, are_accepted, are_enough, are_within};
ghost use Rattle.scrypt.specs.Terms.{buffers_bytes, chunks_bytes, cores_on, cost, cost_by, crypt64_of, decoy_reading};
ghost use Rattle.scrypt.specs.Terms.{derived_key, encoded_len, fields_of, five_letter_number, hash_cost, hash_text};
ghost use Rattle.scrypt.specs.Terms.{hashed_in, hashed_on, is_mcf_text, is_output_len, is_salt_len, is_stored_len};
ghost use Rattle.scrypt.specs.Terms.{is_stored_text, key_by, key_len_or_default, lengths_cost, letter_value};
ghost use Rattle.scrypt.specs.Terms.{letters_of, limits_for_new, made_mcf, made_phc, max_output_len, mixed_b};
ghost use Rattle.scrypt.specs.Terms.{mixed_chunks, mixed_in_order, params_letters, params_of_pairs, params_reading};
ghost use Rattle.scrypt.specs.Terms.{pbkdf2, pbkdf2_block, phc_params, public_hash, public_part, read_fields, read_mcf};
ghost use Rattle.scrypt.specs.Terms.{read_phc, reading, scratch_words, table_words, tables_used, thin_cost, verdict};
ghost use Rattle.scrypt.specs.Terms.{verify_cost, within, without_len, work, written_pairs};
ghost use Rattle.password_hash.specs.declared.phc.hash.PasswordHash.{PasswordHash};
ghost use Rattle.scrypt_kernel.specs.BlockMix.{block_mix};
ghost use Rattle.scrypt_kernel.specs.RoMix.{ro_mix};
ghost use Rattle.scrypt_kernel.specs.RoMixLoops.{ro_mix_by_loops};
ghost use Rattle.scrypt_kernel.specs.Salsa.{salsa20_8};
ghost use Rattle.scrypt_kernel.specs.Diagonal.{AreInverse, IsBlockMixBy, diagonal_core, diagonal_order, inverse_pivot, pivot, standard_order};
ghost use Rattle.scrypt.specs.Cost.{extra_rows};
ghost use Rattle.scrypt.specs.declared.buffers.Buffers.{Buffers};
ghost use Rattle.scrypt.specs.declared.limits.Limits.{Limits};
ghost use Rattle.scrypt.specs.declared.stepping.Progress.{Progress};
ghost use Rattle.scrypt_kernel.specs.declared.cores.count.CoreCount.{CoreCount};

/// A shorter key is the beginning of a longer one, for any two lengths.
#[tactic(auto, using(crate::proofs::KeyFacts::key_prefix))]
pub fn shorter_key_is_prefix()
    ensures prefix { (password salt : List ℕ) (log_n r p m n : ℕ) → m ≤ n
        → derived_key password salt log_n r p m ≡ take m (derived_key password salt log_n r p n) }
{}

/// A password shorter than 64 bytes has the same key as this password with a zero byte after it,
/// and a password longer than 64 bytes has the same key as its SHA-256 digest.
#[tactic(auto, using(crate::proofs::KeyFacts::same_keys))]
pub fn zero_byte_and_digest_passwords_collide()
    ensures zero_byte { (password salt : List ℕ) (log_n r p n : ℕ) → length password < 64
        → derived_key (password ++ 0 ∷ []) salt log_n r p n ≡ derived_key password salt log_n r p n }
    ensures digest { (password salt : List ℕ) (log_n r p n : ℕ) → 64 < length password
        → derived_key (sha256 password) salt log_n r p n ≡ derived_key password salt log_n r p n }
{}

/// scryptROMix with the array V and the two loops of RFC 7914, section 5, is `ro_mix`, which has no
/// array and computes a row of V wherever it is used.
#[tactic(auto, using(scrypt_kernel::proofs::RoMixLoopFacts::same_ro_mix))]
pub fn ro_mix_is_its_loops()
    ensures same { (b : List ℕ) (log_n : ℕ) → ro_mix_by_loops b log_n ≡ ro_mix b log_n }
{}

/// PBKDF2 is the first `n` bytes of `T_1 || T_2 || ..`, of as many of these blocks of 32 bytes as
/// are needed (RFC 8018, section 5.2).
pub fn pbkdf2_is_its_blocks()
    ensures same { (password salt : List ℕ) (n : ℕ) → pbkdf2 password salt n
        ≡ take n (flat_map (pbkdf2_block password salt) (range_with_len 1 ((n + 31) / 32))) }
{}

/// The key is the same in one call, with one chunk at a time or several interleaved, with a smaller
/// table, and in steps, whatever the buffers held: `calls` is for what each of these calls ensures,
/// and the others are for a derivation of one step after another. At the same progress its chunks
/// are the same, and once all are mixed, they are B after step 2, whose PBKDF2 is the key.
pub fn derivations_agree()
    ensures calls { (c : Parameters) (password salt : List ℕ) (n m : ℕ) (old other made again : List ℕ) (a b d e : CoreCount)
        → length old ≡ length other → IsDerived c password salt n old made a b
        → IsDerived c password salt m other again d e → made ≡ again }
    ensures steps { (c : Parameters) (password salt : List ℕ) (at to : Progress)
        (chunks table scratch others tables scratches : List ℕ) → at.chunks ≡ to.chunks
        → IsUnderWay password salt c at chunks table scratch → IsUnderWay password salt c to others tables scratches
        → take (chunks_bytes c.r c.p) chunks ≡ take (chunks_bytes c.r c.p) others }
    ensures mixed { (c : Parameters) (password salt : List ℕ) (at : Progress) (chunks table scratch : List ℕ)
        → at.chunks ≡ c.p → chunks_bytes c.r c.p ≤ length chunks → IsUnderWay password salt c at chunks table scratch
        → take (chunks_bytes c.r c.p) chunks ≡ mixed_b password salt c.log_n c.r c.p }
    ensures finished { (c : Parameters) (password salt : List ℕ) (n : ℕ)
        → pbkdf2 password (mixed_b password salt c.log_n c.r c.p) n ≡ key_by c password salt n }
{}

/// The chunks may be mixed one after another in any order that names each of them once.
#[tactic(auto, using(crate::proofs::ChunkFacts::any_order))]
pub fn chunks_in_any_order()
    ensures same { (b order : List ℕ) (log_n r p : ℕ) → 0 < r → length b ≡ p * (128 * r) → NamesEachOnce p order
        → mixed_in_order log_n r b order ≡ mixed_chunks b log_n r p }
{}

/// Parameters that are written to a PHC string are read back as the same `log_n`, `r` and `p`.
#[tactic(auto, using(crate::proofs::PhcFacts::written_read))]
pub fn written_parameters_are_read_back()
    ensures read { (c : Parameters) → IsTrue (are_accepted c.log_n c.r c.p)
        → params_of_pairs (written_pairs c) ≡ Ok (without_len c) }
{}

/// A PHC string, an MCF string, a `$7$` hash and a text of crypt Base64 each have at most one
/// reading, and each reading has at most one text.
pub fn texts_have_one_reading()
    ensures phc_reading { (text : List ℕ) (one other : PasswordHash) → IsHashText text one
        → IsHashText text other → one ≡ other }
    ensures phc_text { (hash : PasswordHash) (one other : List ℕ) → IsHashText one hash
        → IsHashText other hash → one ≡ other }
    ensures modular_reading { (text one other : List ℕ) (fields more : List (List ℕ)) → IsMcfText text one fields
        → IsMcfText text other more → (one ≡ other) × (fields ≡ more) }
    ensures modular_text { (id one other : List ℕ) (fields : List (List ℕ)) → IsMcfText one id fields
        → IsMcfText other id fields → one ≡ other }
    ensures mcf_reading { (text : List ℕ) (one other : Stored) → IsMcfHashText text one
        → IsMcfHashText text other → one ≡ other }
    ensures mcf_text { (one other : List ℕ) (s : Stored) → read_mcf one ≡ Ok s → read_mcf other ≡ Ok s → one ≡ other }
    ensures crypt64_reading { (letters one other : List ℕ) → Crypt64 one letters → Crypt64 other letters → one ≡ other }
    ensures crypt64_text { (bytes one other : List ℕ) → Crypt64 bytes one → Crypt64 bytes other → one ≡ other }
{}

/// A `$7$` hash is read as the parts that it is the text of, if these are allowed, and as no other
/// parts: it is `$7$`, the eleven letters of accepted parameters, a salt without a `$`, a `$`, and
/// the crypt Base64 of a key of an accepted output length.
pub fn mcf_texts_are_read()
    ensures exact { (text : List ℕ) (s : Stored) → (read_mcf text ≡ Ok s) ↔ IsMcfHashText text s }
{}

/// A text that is `$7` or begins with `$7$` is read by its fields, and the text of a PHC hash as
/// this hash. The reading of any other text is `EncodingInvalid`.
pub fn texts_are_read_in_their_format()
    ensures mcf { (text : List ℕ) → is_mcf_text text ≡ true → reading text ≡ read_fields (fields_of text) }
    ensures phc { (text : List ℕ) (hash : PasswordHash) → is_mcf_text text ≡ false → IsHashText text hash
        → reading text ≡ read_phc hash }
    ensures other { (text : List ℕ) → is_mcf_text text ≡ false → ((hash : PasswordHash) → ¬ IsHashText text hash)
        → reading text ≡ Err EncodingInvalid }
    ensures stored { (text : List ℕ) → is_stored_text text ≡ false
        → (reading text ≡ Err EncodingInvalid) × (params_reading text ≡ Err EncodingInvalid) }
{}

/// The parameters and the length of the key of a stored hash are the same as in its reading. An
/// error of its parameters is the error of its reading.
#[tactic(auto, using(crate::proofs::StoredHashFacts::params_of_whole, crate::proofs::StoredHashFacts::params_refused))]
pub fn parameters_are_those_of_the_reading()
    ensures whole { (text : List ℕ) (s : Stored) → reading text ≡ Ok s
        → params_reading text ≡ Ok (s.params, length s.key) }
    ensures refused { (text : List ℕ) (why : Refusal) → params_reading text ≡ Err why → reading text ≡ Err why }
{}

/// A hash that accepted parameters make of a password is read as it was made, and so is its text:
/// it accepts the password, and is not weaker than the parameters ask for. The text of a PHC hash
/// is the text of no other hash, and is within [`Limits::for_new`](crate::Limits::for_new), if the
/// bytes and the work of its derivation are below `2^64` each. The salt of a `$7$` hash is its
/// letters. A key has the requested length.
pub fn made_hashes_are_accepted()
    ensures phc { (c : Parameters) (password salt : List ℕ) → IsTrue (are_accepted c.log_n c.r c.p)
        → IsReadAsMade c password salt (read_phc (made_phc c password salt)) }
    ensures phc_text { (c : Parameters) (password salt : List ℕ) → IsTrue (are_accepted c.log_n c.r c.p)
        → IsTrue (is_stored_len c.output_len) → IsSalt salt
        → IsReadAsMade c password salt (reading (hash_text (made_phc c password salt))) }
    ensures phc_printed { (c : Parameters) (password salt : List ℕ) (hash : PasswordHash)
        → IsTrue (are_accepted c.log_n c.r c.p) → IsTrue (is_stored_len c.output_len) → IsSalt salt
        → IsHashText (hash_text (made_phc c password salt)) hash ↔ (hash ≡ made_phc c password salt) }
    ensures phc_within { (defaults : Limits) (c : Parameters) (password salt : List ℕ) (n : ℕ)
        → IsTrue (are_accepted c.log_n c.r c.p) → IsTrue (is_stored_len c.output_len) → IsSalt salt
        → n ≤ key_len_or_default c → buffers_bytes c.log_n c.r c.p < 2 ^ 64 → work c.log_n c.r c.p < 2 ^ 64
        → within (limits_for_new defaults c n) (reading (hash_text (made_phc c password salt)))
        ≡ reading (hash_text (made_phc c password salt)) }
    ensures mcf { (c : Parameters) (password salt : List ℕ) → IsTrue (are_accepted c.log_n c.r c.p)
        → IsTrue (is_output_len (key_len_or_default c))
        → IsReadAsMade c password (crypt64_of salt) (read_mcf (made_mcf c password salt)) }
    ensures mcf_text { (c : Parameters) (password salt : List ℕ) → IsTrue (are_accepted c.log_n c.r c.p)
        → IsTrue (is_output_len (key_len_or_default c))
        → IsReadAsMade c password (crypt64_of salt) (reading (made_mcf c password salt)) }
    ensures key_len { (c : Parameters) (password salt : List ℕ) (n : ℕ) → length (key_by c password salt n) ≡ n }
{}

/// A password is accepted if and only if the stored key is the key of its length that the
/// parameters and the salt of the hash derive from the password. The verdict is `PasswordInvalid` if
/// and only if the keys differ, or the hash has no key or no salt.
#[tactic(auto, using(crate::proofs::ReadingFacts::verdict_right, crate::proofs::ReadingFacts::verdict_wrong))]
pub fn verdicts_compare_keys()
    ensures right { (password : List ℕ) (reading : Result Stored Refusal) → (verdict password reading ≡ Ok tt)
        ↔ ((s : Stored) × (reading ≡ Ok s) × (s.key ≡ key_by s.params password s.salt (length s.key))) }
    ensures wrong { (password : List ℕ) (reading : Result Stored Refusal)
        → (verdict password reading ≡ Err PasswordInvalid)
        ↔ (((s : Stored) × (reading ≡ Ok s) × (s.key ≢ key_by s.params password s.salt (length s.key)))
        ⊎ (reading ≡ Err PasswordInvalid)) }
{}

/// Reading a `$7$` hash, or the parameters of a PHC hash or of a stored hash, never gives
/// `PasswordInvalid`; and no reading gives `OutOfMemory`, `TooCostly`, `KeyTooShort` or
/// `BufferTooShort`, which come after reading.
#[tactic(auto, using(crate::proofs::StoredHashFacts::errors_of_reading))]
pub fn reading_names_no_password()
    ensures mcf { (text : List ℕ) → NamesNoPassword (read_mcf text) }
    ensures params { (hash : PasswordHash) → NamesNoPassword (phc_params hash) }
    ensures stored { (text : List ℕ) → NamesNoPassword (params_reading text) }
    ensures whole { (text : List ℕ) → IsOfText (reading text) }
{}

/// Numbers below 2^30 and their five letters determine each other, any five letters encode a
/// number, and accepted `r` and `p` are below 2^30.
#[tactic(auto, using(crate::proofs::McfParamsFacts::five_letters_read_back, crate::proofs::McfParamsFacts::five_letters_said))]
pub fn five_letters_are_inverse()
    ensures read_back { (number : ℕ) → number < 2 ^ 30 → five_letter_number (letters_of 5 number) ≡ Some number }
    ensures written_back { (letters : List ℕ) (number : ℕ) → length letters ≡ 5
        → five_letter_number letters ≡ Some number → (letters_of 5 number ≡ letters) × (number < 2 ^ 30) }
    ensures said { (letters : List ℕ) → length letters ≡ 5 → All (λ byte. IsSome (letter_value byte)) letters
        → IsSome (five_letter_number letters) }
    ensures accepted { (log_n r p : ℕ) → IsTrue (are_accepted log_n r p) → (r < 2 ^ 30) × (p < 2 ^ 30) }
{}

/// The eleven letters that encode accepted parameters in `$7$` hashes are equal exactly if `log_n`,
/// `r` and `p` are.
#[tactic(auto, using(crate::proofs::McfTextFacts::params_letters_once))]
pub fn letters_of_parameters_are_injective()
    ensures injective { (log_n r p other_log_n other_r other_p : ℕ) → IsTrue (are_accepted log_n r p)
        → IsTrue (are_accepted other_log_n other_r other_p)
        → (params_letters log_n r p ≡ params_letters other_log_n other_r other_p)
        ↔ ((log_n ≡ other_log_n) × (r ≡ other_r) × (p ≡ other_p)) }
{}

/// The work does not depend on a secret. Verifications with the same public part, which is the
/// length of the password, the parameters of the hash and the lengths of its salt and its key, run
/// equally many cores, and SHA-256 compresses equally many blocks for them: one by one and in
/// batches, for right and wrong passwords, and in both formats. Neither do the buffers, except for
/// the part of the table that a derivation used: its contents are unspecified.
#[tactic(auto, using(crate::proofs::PublicFacts::of_public))]
pub fn work_is_independent_of_secrets()
    ensures password { (w : Workspace) (one other : List ℕ) (reading : Result Stored Refusal) → length one ≡ length other
        → hashed_in w one reading ≡ hashed_in w other reading }
    ensures derived { (one other : List ℕ) (s d : Stored) → public_part (one, Ok s) ≡ public_part (other, Ok d)
        → (cost_by s.params ≡ cost_by d.params) × (verify_cost one s ≡ verify_cost other d) }
    ensures cores { (w : Workspace) (one other : Attempt) → public_part one ≡ public_part other
        → cores_on w one ≡ cores_on w other }
    ensures hashed { (w : Workspace) (one other : Attempt) → public_part one ≡ public_part other
        → hashed_on w one ≡ hashed_on w other }
    ensures left { (one other : Attempt) (before after : Workspace) → public_part one ≡ public_part other
        → IsLeft one.1 before after → IsLeft other.1 before after }
    ensures left_once { (s : Stored) (before one other : Workspace)
        → IsLeft (Ok s) before one → IsLeft (Ok s) before other
        → AreSameAfter (tables_used s.params before.table before.scratch * table_words s.params.log_n s.params.r) one other }
    ensures all_cores { (w : Workspace) (these others : List Attempt)
        → map public_part these ≡ map public_part others
        → sum_by (cores_on w) these ≡ sum_by (cores_on w) others }
    ensures all_hashed { (w : Workspace) (these others : List Attempt)
        → map public_part these ≡ map public_part others
        → sum_by (hashed_on w) these ≡ sum_by (hashed_on w) others }
    ensures all_left { (these others : List Attempt) (before after : Workspace)
        → map public_part these ≡ map public_part others
        → AreLeft these before after → AreLeft others before after }
{}

/// A decoy accepts no password, and is within the limits that its parameters are within. Its public
/// part is that of a hash that is made with its parameters, if their salts have one length; the
/// salt of a `$7$` hash is its letters. So by [`work_is_independent_of_secrets`] its verification
/// has the work of one with the hash, and leaves the same buffers, alone and in batches.
pub fn decoys_cost_what_hashes_cost()
    ensures rejected { (c : Parameters) (password salt : List ℕ) → IsTrue (are_accepted c.log_n c.r c.p)
        → IsTrue (is_stored_len c.output_len) → verdict password (decoy_reading c salt) ≡ Err PasswordInvalid }
    ensures within { (limits : Limits) (c : Parameters) (salt : List ℕ) → IsTrue (are_within limits c)
        → limits.min_key_len ≤ key_len_or_default c → within limits (decoy_reading c salt) ≡ decoy_reading c salt }
    ensures phc { (c : Parameters) (password salt any : List ℕ) → IsTrue (are_accepted c.log_n c.r c.p)
        → IsTrue (is_stored_len c.output_len) → IsSalt salt → length any ≡ length salt
        → public_hash (decoy_reading c any) ≡ public_hash (reading (hash_text (made_phc c password salt))) }
    ensures mcf { (c : Parameters) (password salt any : List ℕ) → IsTrue (are_accepted c.log_n c.r c.p)
        → IsTrue (is_stored_len c.output_len) → length any ≡ encoded_len (length salt)
        → public_hash (decoy_reading c any) ≡ public_hash (reading (made_mcf c password salt)) }
{}

/// With a table that keeps one row in `2^s`, the `N` steps of the walk together recompute at most
/// `N * (2^s - 1)` rows. With `s` of 0 the work is the work with the whole table.
#[tactic(auto, using(crate::proofs::CostFacts::extra_rows_at_most, crate::proofs::CostFacts::whole_table_cost))]
pub fn extra_rows_are_bounded()
    ensures bound { (b : List ℕ) (log_n s : ℕ) → extra_rows b log_n s (2 ^ log_n) ≤ 2 ^ log_n * (2 ^ s - 1) }
    ensures whole { (password salt : List ℕ) (log_n r p : ℕ) → thin_cost password salt log_n r p 0 ≡ cost log_n r p }
{}

/// The work of a derivation bounds its cores together with nine for each block that SHA-256
/// compresses, except for the blocks of a long password, salt or key. So does the limit on work,
/// for all derivations within it.
#[tactic(auto, using(crate::proofs::CostFacts::both_bounded, crate::proofs::CostFacts::both_within))]
pub fn work_bounds_both_counts()
    ensures bounded { (password_len salt_len log_n r p n : ℕ)
        → cost log_n r p + 9 * hash_cost password_len salt_len r p n ≤ work log_n r p
        + 9 * lengths_cost password_len salt_len n }
    ensures within { (limits : Limits) (c : Parameters) (password_len salt_len n : ℕ)
        → IsTrue (are_within limits c)
        → cost c.log_n c.r c.p + 9 * hash_cost password_len salt_len c.r c.p n ≤ limits.max_work
        + 9 * lengths_cost password_len salt_len n }
{}

/// The diagonal order and the standard order are inverse to each other on whole blocks, and so are
/// the two tables of indices. So the proofs about words in diagonal order cover every input.
#[tactic(auto, using(scrypt_kernel::proofs::OrderFacts::orders_are_inverse))]
pub fn diagonal_order_undone()
    ensures undone { (x : List ℕ) → length x % 16 ≡ 0 → standard_order (diagonal_order x) ≡ x }
    ensures redone { (x : List ℕ) → length x % 16 ≡ 0 → diagonal_order (standard_order x) ≡ x }
    ensures tables { AreInverse pivot inverse_pivot }
{}

/// The block mix of words in diagonal order, by the core in diagonal order, is the block mix in
/// diagonal order. Two more clauses check the definition of a block mix by a core: the standard's
/// block mix is one by the standard's core, and each core has at most one.
#[tactic(auto, using(scrypt_kernel::proofs::BlockMixFacts::block_mix_by_core))]
pub fn block_mix_in_diagonal_order()
    ensures mixed { (b : List ℕ) → 0 < length b → length b % 32 ≡ 0
        → IsBlockMixBy diagonal_core (diagonal_order b) (diagonal_order (block_mix b)) }
    ensures standard { (b : List ℕ) → 0 < length b → length b % 32 ≡ 0 → IsBlockMixBy salsa20_8 b (block_mix b) }
    ensures once { (f : List ℕ → List ℕ) (b out other : List ℕ) → length b % 32 ≡ 0 → IsBlockMixBy f b out
        → IsBlockMixBy f b other → out ≡ other }
{}

/// The parameters are accepted, and so is their length of a stored key, and the length of the key
/// that hashing makes. For a hasher pass `&hasher.params()`.
#[tactic(auto, using(crate::proofs::AcceptedFacts::stored_is_output))]
pub fn parameters_are_accepted(params: &crate::Params)
    ensures accepted { IsTrue (are_accepted params.now.log_n params.now.r params.now.p) }
    ensures stored { IsTrue (is_stored_len params.now.output_len) }
    ensures made { IsTrue (is_output_len (key_len_or_default params.now)) }
{
    params.expose_invariant();
}

/// The parameters of a stored hash that can be read are accepted. The buffers of
/// [`Buffers::for_limits`](crate::Buffers::for_limits) are long enough for parameters within the
/// limits, and for a stored hash within them.
pub fn buffers_for_limits_are_enough()
    ensures accepted { (text : List ℕ) (s : Stored) → reading text ≡ Ok s
        → IsTrue (are_accepted s.params.log_n s.params.r s.params.p) }
    ensures parameters { (limits : Limits) (c : Parameters) (own : Buffers)
        → SufficeFor limits own.chunks.items own.table.items own.scratch.items → 0 < c.p
        → IsTrue (are_within limits c) → AreFor c own }
    ensures hash { (limits : Limits) (text : List ℕ) (s : Stored) (own : Buffers)
        → SufficeFor limits own.chunks.items own.table.items own.scratch.items → reading text ≡ Ok s
        → IsOk (within limits (reading text)) → AreFor s.params own }
{}

/// Limits change no hash: what is within them is the reading itself, and an error of reading stays.
pub fn within_changes_nothing()
    ensures same { (limits : Limits) (read : Result Stored Refusal) → IsOk (within limits read)
        → within limits read ≡ read }
    ensures allowed { (limits : Limits) (s : Stored) → IsOk (within limits (Ok s))
        ↔ (IsTrue (are_within limits s.params) × (limits.min_key_len ≤ length s.key)) }
    ensures unread { (limits : Limits) (why : Refusal) → within limits (Err why) ≡ Err why }
{}

/// Each computed condition, as the inequalities that it means: the preconditions of calls on
/// parameters, lengths, buffers and limits. With this law a caller shows them by arithmetic, also
/// for numeric literals.
pub fn conditions_are_inequalities()
    ensures accepted { (log_n r p : ℕ)
        → IsTrue (are_accepted log_n r p)
        ↔ ((0 < r) × (0 < p) × (128 * r * 2 ^ log_n < 2 ^ 64) × (r * p < 2 ^ 30)) }
    ensures output { (n : ℕ) → IsTrue (is_output_len n) ↔ ((1 ≤ n) × (n ≤ max_output_len)) }
    ensures stored { (n : ℕ) → IsTrue (is_stored_len (Some n)) ↔ ((10 ≤ n) × (n ≤ 64)) }
    ensures salt { (n : ℕ) → IsTrue (is_salt_len n) ↔ ((1 ≤ n) × (n ≤ 64)) }
    ensures enough { (c : Parameters) (chunks table scratch : List ℕ)
        → IsTrue (are_enough c chunks table scratch)
        ↔ ((chunks_bytes c.r c.p ≤ length chunks) × (table_words c.log_n c.r ≤ length table)
        × (scratch_words c.r ≤ length scratch)) }
    ensures within { (limits : Limits) (c : Parameters) → IsTrue (are_within limits c)
        ↔ ((buffers_bytes c.log_n c.r c.p ≤ limits.max_mem) × (work c.log_n c.r c.p ≤ limits.max_work)) }
{}
