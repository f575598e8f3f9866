// The parameters of a derivation.
#![tactic(auto, unfolding(crate::specs::Accepted::are_accepted, crate::specs::Accepted::is_stored_len))]

ghost use Rattle.std.specs.Prelude.{◌≡◌, ◌↔◌, ◌+◌, ◌*◌, ◌^◌, ◌<◌, ◌≤◌, IsOk, IfOk, IsTrue, None, Some};
ghost use Rattle.scrypt.specs.Terms.{Parameters, are_accepted, checked, cost, is_below, is_stored_len};
ghost use Rattle.scrypt.specs.Terms.{key_len_or_default, parameters_eq, recommended_parameters, with_refusal};
ghost use Rattle.scrypt.specs.Terms.{without_len, work};
ghost use Rattle.std.specs.Cmp.{and_equiv, on_equiv, partial_equiv_from_equiv};
ghost use Rattle.std.specs.Cmp.Lexicographic.{options_equiv};
ghost use Rattle.std.proofs.lemmas.Cmp.{nat_eq_equiv};

use crate::InvalidParams;
use password_hash::Error;
use password_hash::phc::Output;
use std::marker::Model;

/// The parameters of a derivation: the work factor `N = 2^log_n`, the block size `r` and the
/// parallelization `p` (RFC 7914, section 2), and optionally the length of a stored key.
///
/// Equality compares all four, including the optional length.
#[derive(Clone, Copy, Debug)]
pub struct Params {
    log_n: u8,
    r: u32,
    p: u32,
    output_len: Option<usize>,
}

impl Model for Params {
    ghost use Rattle.std.specs.Prelude.{IsTrue};
    ghost use Rattle.scrypt.specs.Accepted.{Parameters, are_accepted, is_stored_len};

    ghost Value = { Parameters };

    ghost view = { λ a. record { log_n = a.log_n; r = a.r; p = a.p; output_len = a.output_len } };

    ghost invariant = { λ a. IsTrue (are_accepted a.log_n a.r a.p) × IsTrue (is_stored_len a.output_len) };

    ghost inverse = { λ c. record { log_n = c.log_n; r = c.r; p = c.p; output_len = c.output_len } };
}

const _: () = prove!(Params::RECOMMENDED_LOG_N == 17 && Params::RECOMMENDED_R == 8);

const _: () = prove!(Params::RECOMMENDED_P == 1 && Params::RECOMMENDED_LEN == 32);

const _: () = prove!(Params::RECOMMENDED.log_n == 17 && Params::RECOMMENDED.r == 8);

const _: () = prove!(Params::RECOMMENDED.p == 1);

impl Params {
    /// The recommended logarithm of the work factor to base 2.
    pub const RECOMMENDED_LOG_N: u8 = 17;

    /// The recommended block size.
    pub const RECOMMENDED_R: u32 = 8;

    /// The recommended parallelization.
    pub const RECOMMENDED_P: u32 = 1;

    /// The recommended length of a key in bytes.
    pub const RECOMMENDED_LEN: usize = 32;

    /// The parameters that are recommended for new hashes, with no length.
    // The prover computes that they are accepted wherever the constant is used. A function of
    // another crate that uses it needs
    // `#[tactic(auto, unfolding(scrypt::specs::Accepted::are_accepted, scrypt::specs::Accepted::is_stored_len))]`.
    // `Params::default()` is the same value, and needs no attribute.
    pub const RECOMMENDED: Params = Params {
        log_n: Params::RECOMMENDED_LOG_N,
        r: Params::RECOMMENDED_R,
        p: Params::RECOMMENDED_P,
        output_len: None,
    };

    /// Creates parameters, with no length of a stored key.
    ///
    /// Accepts exactly the parameters with `r > 0`, `p > 0`, `128 * r * 2^log_n < 2^64` and
    /// `r * p < 2^30`, computed in unbounded integers, and returns `InvalidParams` for all others.
    /// So `log_n` is at most 56. As in the Rust crate and unlike RFC 7914, section 2, `log_n` may
    /// be 0, and may be `16 * r` or more.
    #[tactic(auto, unfolding(crate::specs::Accepted::is_stored_len))]
    pub fn new(log_n: u8, r: u32, p: u32) -> Result<Params, InvalidParams>
        ensures accepted { IsOk result ↔ IsTrue (are_accepted log_n r p) }
        ensures value { IfOk result (λ made. made ≡ record { log_n = log_n; r = r; p = p; output_len = None }) }
    {
        if !are_accepted(log_n, r, p) {
            return Err(InvalidParams);
        }
        Ok(Params {
            log_n,
            r,
            p,
            output_len: None,
        })
    }

    /// Creates parameters with `len`, the length of a stored key in bytes.
    ///
    /// Returns `InvalidParams` exactly if [`Params::new`] does or `len` is not from 10 to 64.
    #[tactic(auto, using(std::proofs::lemmas::Bool::Decides::nat_tests), unfolding(crate::specs::Accepted::is_stored_len))]
    pub fn new_with_output_len(
        log_n: u8,
        r: u32,
        p: u32,
        len: usize,
    ) -> Result<Params, InvalidParams>
        ensures accepted { IsOk result ↔ IsTrue (are_accepted log_n r p) × IsTrue (is_stored_len (Some len)) }
        ensures value { IfOk result (λ made. made ≡ record { log_n = log_n; r = r; p = p; output_len = Some len }) }
    {
        if !(Output::MIN_LENGTH..=Output::MAX_LENGTH).contains(&len) {
            return Err(InvalidParams);
        }
        Ok(Params::new(log_n, r, p)?.with_output_len(len))
    }

    /// Returns the parameters of a text. Returns `ParamsInvalid` if [`Params::new`] does not accept
    /// them.
    #[tactic(auto, using(crate::proofs::AcceptedFacts::reading_numbers))]
    pub(crate) fn of_text(log_n: u8, r: u32, p: u32) -> password_hash::Result<Params>
        ensures { with_refusal result ≡ checked log_n r p }
    {
        Params::new(log_n, r, p).map_err(|_| Error::ParamsInvalid)
    }

    /// Returns the recommended parameters.
    #[deprecated(since = "0.12.0", note = "use `Params::RECOMMENDED`, or `Params::default()`")]
    pub fn recommended() -> Params
        ensures value { result ≡ recommended_parameters }
    {
        Params::RECOMMENDED
    }

    /// Returns the same parameters with `len` as the length of a stored key.
    pub(crate) fn with_output_len(self, len: usize) -> Params
        requires { IsTrue (is_stored_len (Some len)) }
        ensures { result ≡ record self { output_len = Some len } }
    {
        Params {
            output_len: Some(len),
            ..self
        }
    }

    /// Returns the same parameters without a length.
    pub(crate) fn without_len(&self) -> Params
        ensures { result ≡ without_len self.now }
    {
        Params {
            output_len: None,
            ..*self
        }
    }

    /// Proof hint: exposes the invariant that the parameters are accepted, and their length if they
    /// have one.
    #[tactic(auto, using(crate::proofs::AcceptedFacts::bounds))]
    pub(crate) fn expose_invariant(&self)
        ensures accepted { IsTrue (are_accepted self.now.log_n self.now.r self.now.p) }
        ensures stored { IsTrue (is_stored_len self.now.output_len) }
        ensures some { (0 < self.now.r) × (0 < self.now.p) }
        ensures table { 128 * self.now.r * 2 ^ self.now.log_n < 2 ^ 64 }
        ensures product { self.now.r * self.now.p < 2 ^ 30 }
    {
        let _ = &self.log_n;
    }

    /// Returns the length of a stored key, 10 to 64 bytes, if one was given.
    pub(crate) fn output_len(&self) -> Option<usize>
        ensures value { result ≡ self.now.output_len }
        ensures stored { IsTrue (is_stored_len result) }
    {
        self.output_len
    }

    /// Returns the length in bytes of the key that hashing with these parameters makes.
    #[tactic(auto, using(std::proofs::lemmas::Bool::Decides::nat_tests), unfolding(crate::specs::Accepted::is_stored_len))]
    pub(crate) fn key_len_or_default(&self) -> usize
        ensures value { result ≡ key_len_or_default self.now }
        ensures stored { (10 ≤ result) × (result ≤ 64) }
    {
        self.output_len().unwrap_or(Params::RECOMMENDED_LEN)
    }

    /// Returns whether `log_n`, `r`, `p` or the length of the key, which is `key_len`, is below the
    /// wanted one.
    #[tactic(auto, unfolding(crate::specs::Reading::is_below))]
    pub(crate) fn is_below(&self, wanted: &Params, key_len: usize) -> bool
        ensures { result ≡ is_below wanted.now self.now key_len }
    {
        self.log_n() < wanted.log_n()
            || self.r() < wanted.r()
            || self.p() < wanted.p()
            || key_len < wanted.key_len_or_default()
    }

    /// Returns the logarithm of the work factor `N` to base 2, at most 56.
    #[tactic(auto, using(crate::proofs::AcceptedFacts::bounds, crate::proofs::AcceptedFacts::small_log_n))]
    pub fn log_n(&self) -> u8
        ensures value { result ≡ self.now.log_n }
        ensures small { result ≤ 56 }
    {
        self.log_n
    }

    /// Returns the work factor `N = 2^log_n`.
    #[tactic(auto, using(crate::proofs::AcceptedFacts::bounds, crate::proofs::AcceptedFacts::small_log_n))]
    pub fn n(&self) -> u64
        ensures value { result ≡ 2 ^ self.now.log_n }
    {
        1 << self.log_n
    }

    /// Returns the block size `r`, at least 1: a chunk and a row of the table have `128 * r` bytes
    /// each.
    #[tactic(auto, using(crate::proofs::AcceptedFacts::bounds))]
    pub fn r(&self) -> u32
        ensures value { result ≡ self.now.r }
        ensures some { 0 < result }
        ensures table { 128 * result * 2 ^ self.now.log_n < 2 ^ 64 }
    {
        self.r
    }

    /// Returns the parallelization `p`, at least 1: the number of chunks that are mixed.
    #[tactic(auto, using(crate::proofs::AcceptedFacts::bounds))]
    pub fn p(&self) -> u32
        ensures value { result ≡ self.now.p }
        ensures some { 0 < result }
        ensures product { self.now.r * result < 2 ^ 30 }
    {
        self.p
    }

    /// Returns the number of Salsa20/8 cores that a derivation runs, `4 * N * r * p`, which is
    /// below `2^89`.
    #[tactic(auto, using(crate::proofs::AcceptedFacts::small_cores))]
    pub fn cores(&self) -> u128
        ensures value { result ≡ cost self.now.log_n self.now.r self.now.p }
        ensures small { result < 2 ^ 89 }
    {
        let blocks = self.n() * u64::from(self.r());
        4 * u128::from(blocks) * u128::from(self.p())
    }

    /// Returns the work of a derivation, `4 * (N + 32) * r * p`, which is below `2^90`: its cores,
    /// and PBKDF2, which takes about as long as `128 * r * p` cores.
    pub fn work(&self) -> u128
        ensures value { result ≡ work self.now.log_n self.now.r self.now.p }
        ensures small { result < 2 ^ 90 }
    {
        let chunk_blocks = u64::from(self.r()) * u64::from(self.p());
        self.cores() + 128 * u128::from(chunk_blocks)
    }
}

impl PartialEq for Params {
    ghost eq = { parameters_eq };

    ghost laws = { partial_equiv_from_equiv (and_equiv
        (and_equiv (on_equiv (λ (c : Parameters). c.output_len) (options_equiv nat_eq_equiv))
        (on_equiv (λ (c : Parameters). c.log_n) nat_eq_equiv))
        (and_equiv (on_equiv (λ (c : Parameters). c.r) nat_eq_equiv) (on_equiv (λ (c : Parameters). c.p) nat_eq_equiv))) };

    /// Returns whether all four are equal: the optional length, `log_n`, `r` and `p`.
    #[tactic(auto, using(crate::proofs::AcceptedFacts::parameters_decided))]
    fn eq(&self, other: &Params) -> bool
        ensures value { result ≡ parameters_eq self.now other.now }
        ensures exact { IsTrue result ↔ (self.now ≡ other.now) }
    {
        self.output_len == other.output_len
            && self.log_n == other.log_n
            && self.r == other.r
            && self.p == other.p
    }
}

impl Default for Params {
    ghost is_default = { λ params. params ≡ recommended_parameters };

    fn default() -> Params {
        Params::RECOMMENDED
    }
}

#[tactic(auto, using(crate::proofs::AcceptedFacts::small_log_n, crate::proofs::AcceptedFacts::table_bytes, std::proofs::lemmas::Bool::Decides::nat_tests), unfolding(crate::specs::Accepted::are_accepted))]
fn are_accepted(log_n: u8, r: u32, p: u32) -> bool
    ensures { result ≡ are_accepted log_n r p }
{
    if r == 0 || p == 0 || log_n > 56 {
        return false;
    }
    is_table_small(log_n, r) && u64::from(r) * u64::from(p) < 1 << 30
}

// Returns whether a table has fewer than 2^64 bytes: 128 * r * 2^log_n, without its factor 2^7.
fn is_table_small(log_n: u8, r: u32) -> bool
    requires { log_n ≤ 56 }
    ensures { IsTrue result ↔ (r * 2 ^ log_n < 2 ^ 57) }
{
    u64::from(r)
        .checked_mul(1 << log_n)
        .is_some_and(|blocks| blocks < 1 << 57)
}
