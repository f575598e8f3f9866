//! Two vectors side by side, for three blocks and for four.

ghost use Rattle.std.specs.Prelude.{◌≡◌, ◌≢◌, ℕ, ◌+◌, ◌*◌, ◌<◌, ◌≤◌, List, length};

use crate::cores::simd::Lanes;
use crate::parts::Parts;
use std::simd::u32x4;

/// One of the two vectors of [`Both`].
pub trait Half: Lanes {
    // it has at most two blocks
    ghost few: { Self.count ≤ 2 };
}

/// The lanes of the blocks of two vectors.
#[derive(Clone, Copy)]
pub struct Both<A, B> {
    pub(crate) a: A,
    pub(crate) b: B,
}

impl<A: Half, B: Half> Lanes for Both<A, B> {
    ghost use Rattle.std.specs.Prelude.{ℕ, ◌+◌};
    ghost use Rattle.scrypt_kernel.specs.Lanes.{of_both};

    ghost count = { A.count + B.count };

    ghost lanes = { λ v k. of_both A.count (A.lanes v.a) (B.lanes v.b) k };

    #[inline(always)]
    fn count() -> usize {
        A::count() + B::count()
    }

    #[inline(always)]
    fn read(parts: &Parts<'_>, first: usize, j: usize) -> Both<A, B> {
        Both {
            a: A::read(parts, first, j),
            b: B::read(parts, first + A::count(), j),
        }
    }

    #[inline(always)]
    fn plus(self, y: Both<A, B>) -> Both<A, B> {
        Both {
            a: self.a.plus(y.a),
            b: self.b.plus(y.b),
        }
    }

    #[inline(always)]
    fn xor(self, y: Both<A, B>) -> Both<A, B> {
        Both {
            a: self.a.xor(y.a),
            b: self.b.xor(y.b),
        }
    }

    #[inline(always)]
    fn xor_rotated(self, y: Both<A, B>, bits: u32) -> Both<A, B> {
        Both {
            a: self.a.xor_rotated(y.a, bits),
            b: self.b.xor_rotated(y.b, bits),
        }
    }

    #[inline(always)]
    fn turned(b: Both<A, B>, c: Both<A, B>, d: Both<A, B>) -> (Both<A, B>, Both<A, B>, Both<A, B>) {
        let x = A::turned(b.a, c.a, d.a);
        let y = B::turned(b.b, c.b, d.b);
        (
            Both { a: x.0, b: y.0 },
            Both { a: x.1, b: y.1 },
            Both { a: x.2, b: y.2 },
        )
    }

    #[inline(always)]
    fn four(self, k: usize) -> u32x4 {
        if k < A::count() {
            self.a.four(k)
        } else {
            self.b.four(k - A::count())
        }
    }
}
