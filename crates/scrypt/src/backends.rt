//! Backends: the number of chunks that are interleaved, and whether by vector or scalar code, which
//! depends on the processor.

ghost use Rattle.std.specs.Prelude.{◌≡◌, Bool, ℕ, ◌<◌, ◌≤◌, false, true};

/// A backend: how chunks are mixed on a processor.
///
/// Keys and counts of cores are the same with every backend, so no clause of a call depends on it,
/// except for the size of a group in a derivation in steps. The calls without a backend use
/// [`Target`](crate::Target). On another processor name the backend that is fast there:
/// `scrypt_with_max_mem::<Scalar>` in place of `scrypt_counted`.
pub trait Backend {
    // the maximum number of interleaved chunks
    ghost most: { ℕ };

    // whether groups of one or two chunks are mixed by scalar code, two then one after the other
    ghost scalar: { Bool };

    /// Returns the maximum number of interleaved chunks, from one to four.
    fn max_interleave() -> usize
        ensures value { result ≡ most }
        ensures some { 0 < result }
        ensures few { result ≤ 4 };

    /// Returns whether one chunk is mixed by scalar code and not in vectors, and two one after the
    /// other.
    fn is_scalar() -> bool
        ensures value { result ≡ scalar };
}

/// The backend for x86-64: up to four chunks interleaved, in vectors.
pub struct Simd;

impl Backend for Simd {
    ghost most = { 4 };

    ghost scalar = { false };

    #[inline(always)]
    fn max_interleave() -> usize {
        4
    }

    #[inline(always)]
    fn is_scalar() -> bool {
        false
    }
}

/// The backend for arm64, whose vector instructions take twice as long: one chunk by scalar code,
/// and three or four interleaved in vectors.
pub struct Scalar;

impl Backend for Scalar {
    ghost most = { 4 };

    ghost scalar = { true };

    #[inline(always)]
    fn max_interleave() -> usize {
        4
    }

    #[inline(always)]
    fn is_scalar() -> bool {
        true
    }
}

/// The backend for WebAssembly, whose engines lack registers for the blocks of three chunks: at
/// most two chunks interleaved, in vectors.
pub struct SimdPairs;

impl Backend for SimdPairs {
    ghost most = { 2 };

    ghost scalar = { false };

    #[inline(always)]
    fn max_interleave() -> usize {
        2
    }

    #[inline(always)]
    fn is_scalar() -> bool {
        false
    }
}
