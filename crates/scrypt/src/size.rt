//! Numbers that parameters ask for, whether or not a memory has room for so many.

ghost use Rattle.std.specs.Prelude.{◌≡◌, Ok};

use std::alloc::AllocError;

/// A number of bytes or words that parameters ask for. It has 64 bits, also where addresses have
/// fewer.
pub type Size = usize;

/// Returns a number of elements that a slice has, as an index.
#[inline(always)]
pub(crate) fn index(size: Size) -> usize
    ensures { result ≡ size }
{
    size
}

/// Returns a number of elements to allocate, or an error if no memory can have so many.
#[inline(always)]
pub(crate) fn room(size: Size) -> Result<usize, AllocError>
    ensures { result ≡ Ok size }
{
    Ok(size)
}
