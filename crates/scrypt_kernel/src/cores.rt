//! The Salsa20/8 cores and SHA-256, and the count of the cores that were run and of the blocks that
//! were compressed.

mod count;
pub mod salsa;
pub(crate) mod sha256;
pub mod simd;

pub use count::CoreCount;
