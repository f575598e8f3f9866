//! The Salsa20/8 core (RFC 7914, section 3) on words in diagonal order, of one block or of several
//! side by side. Each vector has four lanes of every block.

ghost use Rattle.std.specs.Prelude.{◌≡◌, ◌≢◌, ℕ, ◌+◌, ◌*◌, ◌/◌, ◌<◌, ◌≤◌, ◌++◌, List, length, true};
ghost use Rattle.scrypt_kernel.specs.{AreCountedAs, AreFourEach, AreParts, add_words, at, block_of, diagonal_core};
ghost use Rattle.scrypt_kernel.specs.{diagonal_order, part, part_of, quarter_rounds, salsa20_8, standard_order, turned};
ghost use Rattle.scrypt_kernel.specs.{turned_left, xor_rotated, xor_words};

pub mod both;
pub mod scalars;
mod vectors;

use crate::cores::CoreCount;
use crate::parts::Parts;
use crate::words::{put_in_part, put_vector, vector};
use std::simd::u32x4;

/// Replaces the 16 words, which are in diagonal order, by their Salsa20/8 core in diagonal order,
/// and counts it as one in diagonal order (RFC 7914, section 3).
#[inline(always)]
pub fn core(x: &mut [u32; 16], cores: &mut CoreCount)
    ensures value { x.new ≡ diagonal_order (salsa20_8 (standard_order x.old)) }
    ensures counted { AreCountedAs true 1 cores.old cores.new }
{
    *x = in_vectors(x).counted_core(cores).block(0);
}

/// Returns these words as the lanes of four vectors.
#[tactic(auto, using(crate::proofs::LaneFacts::block_of_lanes))]
#[inline(always)]
pub(crate) fn in_vectors(words: &[u32; 16]) -> FourVectors<u32x4>
    ensures { block_of (λ v k. part 4 v k) result 0 ≡ words.now }
{
    FourVectors {
        a: vector(words, 0),
        b: vector(words, 1),
        c: vector(words, 2),
        d: vector(words, 3),
    }
}

/// A block, or several side by side, as four vectors.
#[derive(Clone, Copy)]
pub struct FourVectors<V> {
    pub(crate) a: V,
    pub(crate) b: V,
    pub(crate) c: V,
    pub(crate) d: V,
}

impl<V: Lanes> FourVectors<V> {
    ghost use Rattle.std.specs.Prelude.{◌≡◌, ℕ, ◌<◌, true};
    ghost use Rattle.scrypt_kernel.specs.{AreCountedAs, AreWhole, diagonal_core, diagonal_round};

    /// Returns the Salsa20/8 core of each block in diagonal order, and counts them.
    #[inline(always)]
    pub(crate) fn counted_core(self, cores: &mut CoreCount) -> FourVectors<V>
        ensures value { (k : ℕ) → k < V.count → block_of V.lanes result k ≡ diagonal_core (block_of V.lanes self k) }
        ensures counted { AreCountedAs true V.count cores.old cores.new }
    {
        let mixed = self.salsa20_8();
        self.count(&mixed, cores);
        mixed
    }

    // Counts the cores whose inputs are these blocks and whose outputs are the blocks of `mixed`.
    // The compiler removes this, because a count has no bytes.
    fn count(&self, mixed: &FourVectors<V>, cores: &mut CoreCount)
        requires { (k : ℕ) → k < V.count → block_of V.lanes mixed.now k ≡ diagonal_core (block_of V.lanes self.now k) }
        ensures { AreCountedAs true V.count cores.old cores.new }
    {
        'each: for k in 0..V::count() {
            *cores = CoreCount::after_core(cores, &self.block(k), &mixed.block(k));
        }
    }

    #[inline(always)]
    fn salsa20_8(self) -> FourVectors<V>
        ensures { (k : ℕ) → k < V.count → block_of V.lanes result k ≡ diagonal_core (block_of V.lanes self k) }
    {
        let once = self.double_round();
        let twice = once.double_round();
        let thrice = twice.double_round();
        let all = thrice.double_round();
        FourVectors {
            a: self.a.plus(all.a),
            b: self.b.plus(all.b),
            c: self.c.plus(all.c),
            d: self.d.plus(all.d),
        }
    }

    // A double round is two halves: the first is the columns, and the second the rows.
    #[inline(always)]
    fn double_round(self) -> FourVectors<V>
        ensures whole { (k : ℕ) → k < V.count → AreWhole V.lanes self k }
        ensures value { (k : ℕ) → k < V.count → block_of V.lanes result k ≡ diagonal_round (block_of V.lanes self k) }
        ensures still_whole { (k : ℕ) → k < V.count → AreWhole V.lanes result k }
    {
        let (a, b, c, d) = turn(self.a, self.b, self.c, self.d);
        let (a, b, c, d) = turn(a, b, c, d);
        FourVectors { a, b, c, d }
    }

    /// Returns block `k`.
    pub(crate) fn block(&self, k: usize) -> [u32; 16]
        requires { k < V.count }
        ensures { result ≡ block_of V.lanes self.now k }
    {
        let mut words = [0u32; 16];
        put_vector(&mut words, 0, self.a.four(k));
        put_vector(&mut words, 1, self.b.four(k));
        put_vector(&mut words, 2, self.c.four(k));
        put_vector(&mut words, 3, self.d.four(k));
        words
    }
}

/// A vector with four lanes of each block of a group.
pub trait Lanes: Copy {
    // the number of blocks
    ghost count: { ℕ };

    // the lanes of block k
    ghost lanes: { Self → ℕ → List ℕ };

    /// Returns the number of blocks.
    fn count() -> usize
        ensures value { result ≡ count }
        ensures some { 0 < result }
        ensures few { result ≤ 4 };

    /// Reads four words of each part, from part `first` on: the words at indices `4 * j` to
    /// `4 * j + 3`.
    fn read(parts: &Parts<'_>, first: usize, j: usize) -> Self
        requires all { AreParts (first + count) parts.now }
        requires inside { 4 * j + 4 ≤ parts.now.len }
        ensures { (k : ℕ) → k < count → lanes result k ≡ part 4 (part_of parts.now (first + k)) j };

    /// Writes the lanes to the same indices of the parts of `x`, which is cut into parts of `len`
    /// words.
    #[inline(always)]
    fn write(self, x: &mut [u32], len: usize, j: usize)
        requires all { count * len ≤ length x.old }
        requires inside { 4 * j + 4 ≤ len }
        ensures written { (k : ℕ) → k < count → part 4 (part len x.new k) j ≡ lanes self k }
        ensures others { (k i : ℕ) → i ≢ j → part 4 (part len x.new k) i ≡ part 4 (part len x.old k) i }
    {
        'parts: for k in 0..Self::count() {
            put_in_part(x, len, k, j, self.four(k));
        }
    }

    /// Adds word by word.
    fn plus(self, y: Self) -> Self
        ensures { (k : ℕ) → lanes result k ≡ add_words (lanes self k) (lanes y k) };

    /// The exclusive or.
    fn xor(self, y: Self) -> Self
        ensures four { (k : ℕ) → k < count → ((length (lanes self k) ≡ 4) × (length (lanes y k) ≡ 4)) }
        ensures value { (k : ℕ) → lanes result k ≡ xor_words (lanes self k) (lanes y k) };

    /// The exclusive or of each word with the word of `y` rotated to the left by `bits` bits.
    fn xor_rotated(self, y: Self, bits: u32) -> Self
        requires { (0 < bits) × (bits < 32) }
        ensures four { (k : ℕ) → k < count → length (lanes self k) ≡ 4 }
        ensures value { (k : ℕ) → lanes result k ≡ xor_rotated bits (lanes self k) (lanes y k) };

    /// Rotates the lanes of each block to the left: the lanes of `d` by one, of `c` by two, and of
    /// `b` by three.
    fn turned(b: Self, c: Self, d: Self) -> (Self, Self, Self)
        ensures { (k : ℕ) → k < count
            → ((lanes result.0 k ≡ turned_left 1 (lanes d k))
            × (lanes result.1 k ≡ turned_left 2 (lanes c k))
            × (lanes result.2 k ≡ turned_left 3 (lanes b k))) };

    /// Returns the lanes of block `k`.
    fn four(self, k: usize) -> u32x4
        requires { k < count }
        ensures { result ≡ lanes self k };
}

// Four quarter rounds of each block in parallel, one in each lane. Then the lanes are rotated, so
// that the columns of the block become the rows, or the reverse.
#[inline(always)]
fn turn<V: Lanes>(a: V, b: V, c: V, d: V) -> (V, V, V, V)
    ensures four { (k : ℕ) → k < V.count → AreFourEach (V.lanes a k, V.lanes b k, V.lanes c k, V.lanes d k) }
    ensures value { (k : ℕ) → k < V.count
        → at V.lanes result k ≡ turned (quarter_rounds (V.lanes a k) (V.lanes b k) (V.lanes c k) (V.lanes d k)) }
{
    let b = b.xor_rotated(a.plus(d), 7);
    let c = c.xor_rotated(b.plus(a), 9);
    let d = d.xor_rotated(c.plus(b), 13);
    let a = a.xor_rotated(d.plus(c), 18);
    let (d, c, b) = V::turned(b, c, d);
    (a, d, c, b)
}
