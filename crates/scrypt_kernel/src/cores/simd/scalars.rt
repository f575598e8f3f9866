//! The lanes of one block as scalar words. Some processors take longer for a step of one block in
//! vectors than in scalar code, for example arm64 processors, which rotate a word in the
//! instruction that uses it.

ghost use Rattle.std.specs.Prelude.{◌≡◌, ◌≢◌, ℕ, ◌+◌, ◌*◌, ◌<◌, ◌≤◌, ◌∷◌, [], List, length};
ghost use Rattle.scrypt_kernel.specs.Words.{part, xor_words};

use crate::cores::simd::Lanes;
use crate::parts::Parts;
use crate::words::{put_words, vector};
use std::simd::u32x4;

/// Four lanes of one block, each of them in its own register. Words are first read as a vector, so
/// that rows are loaded and joined four words at a time: the lanes are the exclusive or of the
/// words and of that vector.
#[derive(Clone, Copy)]
pub struct Scalars {
    a: u32,
    b: u32,
    c: u32,
    d: u32,
    row: u32x4,
}

impl Scalars {
    ghost use Rattle.std.specs.Prelude.{◌∷◌, []};
    ghost use Rattle.scrypt_kernel.specs.Words.{xor_words};

    // Four lanes that are these words.
    #[inline]
    fn of(a: u32, b: u32, c: u32, d: u32) -> Scalars
        ensures words { result.a ∷ result.b ∷ result.c ∷ result.d ∷ [] ≡ a ∷ b ∷ c ∷ d ∷ [] }
        ensures lanes { xor_words (a ∷ b ∷ c ∷ d ∷ []) result.row ≡ a ∷ b ∷ c ∷ d ∷ [] }
    {
        let row = u32x4::splat(0);
        Scalars { a, b, c, d, row }
    }

    // The same lanes, all of them in scalar words.
    #[inline]
    fn in_words(self) -> Scalars
        ensures { result.a ∷ result.b ∷ result.c ∷ result.d ∷ []
            ≡ xor_words (self.a ∷ self.b ∷ self.c ∷ self.d ∷ []) self.row }
    {
        let row = self.row.to_array();
        Scalars::of(
            self.a ^ row[0],
            self.b ^ row[1],
            self.c ^ row[2],
            self.d ^ row[3],
        )
    }
}

impl Lanes for Scalars {
    ghost use Rattle.std.specs.Prelude.{◌∷◌, []};
    ghost use Rattle.scrypt_kernel.specs.Words.{xor_words};

    ghost count = { 1 };

    ghost lanes = { λ v k. xor_words (v.a ∷ v.b ∷ v.c ∷ v.d ∷ []) v.row };

    #[inline]
    fn count() -> usize {
        1
    }

    #[inline]
    fn read(parts: &Parts<'_>, first: usize, j: usize) -> Scalars {
        Scalars {
            a: 0,
            b: 0,
            c: 0,
            d: 0,
            row: vector(parts.part(first), j),
        }
    }

    #[inline]
    fn write(self, x: &mut [u32], len: usize, j: usize) {
        let v = self.in_words();
        put_words(&mut x[..len], j, &[v.a, v.b, v.c, v.d]);
    }

    #[inline]
    fn plus(self, y: Scalars) -> Scalars {
        let (x, y) = (self.in_words(), y.in_words());
        Scalars::of(
            x.a.wrapping_add(y.a),
            x.b.wrapping_add(y.b),
            x.c.wrapping_add(y.c),
            x.d.wrapping_add(y.d),
        )
    }

    #[inline]
    fn xor(self, y: Scalars) -> Scalars {
        Scalars {
            a: self.a ^ y.a,
            b: self.b ^ y.b,
            c: self.c ^ y.c,
            d: self.d ^ y.d,
            row: self.row ^ y.row,
        }
    }

    #[inline]
    fn xor_rotated(self, y: Scalars, bits: u32) -> Scalars {
        let (x, y) = (self.in_words(), y.in_words());
        Scalars::of(
            x.a ^ y.a.rotate_left(bits),
            x.b ^ y.b.rotate_left(bits),
            x.c ^ y.c.rotate_left(bits),
            x.d ^ y.d.rotate_left(bits),
        )
    }

    #[inline]
    fn turned(b: Scalars, c: Scalars, d: Scalars) -> (Scalars, Scalars, Scalars) {
        let (b, c, d) = (b.in_words(), c.in_words(), d.in_words());
        (
            Scalars::of(d.b, d.c, d.d, d.a),
            Scalars::of(c.c, c.d, c.a, c.b),
            Scalars::of(b.d, b.a, b.b, b.c),
        )
    }

    #[inline]
    fn four(self, _k: usize) -> u32x4 {
        let v = self.in_words();
        u32x4::from_array([v.a, v.b, v.c, v.d])
    }
}
