//! The vectors of four lanes and of eight, for one block and for two.

ghost use Rattle.std.specs.Prelude.{◌≡◌, ℕ, ◌+◌, ◌*◌, ◌<◌, ◌≤◌, length};
ghost use Rattle.scrypt_kernel.specs.{add_words, part, xor_rotated, xor_words};

use crate::cores::simd::Lanes;
use crate::cores::simd::both::Half;
use crate::parts::Parts;
use crate::words::vector;
use std::simd::{Simd, u32x4, u32x8};

impl Lanes for u32x4 {
    ghost count = { 1 };

    ghost lanes = { λ v k. part 4 v k };

    #[inline(always)]
    fn count() -> usize {
        1
    }

    #[inline(always)]
    fn read(parts: &Parts<'_>, first: usize, j: usize) -> u32x4 {
        vector(parts.part(first), j)
    }

    #[inline(always)]
    fn plus(self, y: u32x4) -> u32x4 {
        plus(self, y)
    }

    #[inline(always)]
    fn xor(self, y: u32x4) -> u32x4 {
        xor(self, y)
    }

    #[inline(always)]
    fn xor_rotated(self, y: u32x4, bits: u32) -> u32x4 {
        xor_rotated(self, y, bits)
    }

    #[inline(always)]
    fn turned(b: u32x4, c: u32x4, d: u32x4) -> (u32x4, u32x4, u32x4) {
        (
            d.rotate_elements_left::<1>(),
            c.rotate_elements_left::<2>(),
            b.rotate_elements_left::<3>(),
        )
    }

    #[inline(always)]
    fn four(self, k: usize) -> u32x4 {
        four_of(self, k)
    }
}

impl Lanes for u32x8 {
    ghost count = { 2 };

    ghost lanes = { λ v k. part 4 v k };

    #[inline(always)]
    fn count() -> usize {
        2
    }

    #[inline(always)]
    fn read(parts: &Parts<'_>, first: usize, j: usize) -> u32x8 {
        let x = vector(parts.part(first), j);
        let y = vector(parts.part(first + 1), j);
        x.shuffle(y, [0, 1, 2, 3, 4, 5, 6, 7])
    }

    #[inline(always)]
    fn plus(self, y: u32x8) -> u32x8 {
        plus(self, y)
    }

    #[inline(always)]
    fn xor(self, y: u32x8) -> u32x8 {
        xor(self, y)
    }

    #[inline(always)]
    fn xor_rotated(self, y: u32x8, bits: u32) -> u32x8 {
        xor_rotated(self, y, bits)
    }

    #[inline(always)]
    fn turned(b: u32x8, c: u32x8, d: u32x8) -> (u32x8, u32x8, u32x8) {
        (
            d.swizzle([1, 2, 3, 0, 5, 6, 7, 4]),
            c.swizzle([2, 3, 0, 1, 6, 7, 4, 5]),
            b.swizzle([3, 0, 1, 2, 7, 4, 5, 6]),
        )
    }

    #[inline(always)]
    fn four(self, k: usize) -> u32x4 {
        four_of(self, k)
    }
}

impl Half for u32x4 {
    ghost use Rattle.std.proofs.Common.{lit≤};

    ghost few = { lit≤ tt };
}

impl Half for u32x8 {
    ghost use Rattle.std.proofs.Common.{lit≤};

    ghost few = { lit≤ tt };
}

// Adds word by word.
#[inline(always)]
fn plus<const N: usize>(x: Simd<u32, N>, y: Simd<u32, N>) -> Simd<u32, N>
    ensures { (k : ℕ) → part 4 result k ≡ add_words (part 4 x.entry k) (part 4 y.entry k) }
{
    x + y
}

// The exclusive or.
#[inline(always)]
fn xor<const N: usize>(x: Simd<u32, N>, y: Simd<u32, N>) -> Simd<u32, N>
    ensures four { (k : ℕ) → 4 * k + 4 ≤ N → ((length (part 4 x.entry k) ≡ 4) × (length (part 4 y.entry k) ≡ 4)) }
    ensures value { (k : ℕ) → part 4 result k ≡ xor_words (part 4 x.entry k) (part 4 y.entry k) }
{
    x ^ y
}

// Part `k` of the lanes, which are cut into parts of four.
#[inline(always)]
fn four_of<const N: usize>(x: Simd<u32, N>, k: usize) -> u32x4
    requires { 4 * k + 4 ≤ N }
    ensures { result ≡ part 4 x.entry k }
{
    vector(&x.to_array(), k)
}

// The exclusive or of `x` with the lanes of `y`, each rotated to the left by `k` bits. The two
// parts of a rotation share no bit, so two exclusive ors can combine them with `x`, which is 3 to 8
// per cent faster than an or of the parts first. The part that is used last is computed first, so
// that the other one, which the next step waits for, needs no copy.
#[inline(always)]
fn xor_rotated<const N: usize>(x: Simd<u32, N>, y: Simd<u32, N>, k: u32) -> Simd<u32, N>
    requires { (0 < k) × (k < 32) }
    ensures four { (i : ℕ) → 4 * i + 4 ≤ N → length (part 4 x.entry i) ≡ 4 }
    ensures value { (i : ℕ) → part 4 result i ≡ xor_rotated k (part 4 x.entry i) (part 4 y.entry i) }
{
    let right = y >> Simd::<u32, N>::splat(32 - k);
    let left = y << Simd::<u32, N>::splat(k);
    x ^ left ^ right
}
