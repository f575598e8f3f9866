//! The memory of a table, whose rows are written one after another.

ghost use Rattle.std.specs.Prelude.{◌≡◌, ℕ, ◌+◌, ◌*◌, ◌/◌, ◌%◌, ◌<◌, ◌≤◌, List, ◌++◌, drop, length, take};
ghost use Rattle.std.specs.Vec.{vec_capacity};
ghost use Rattle.scrypt_kernel.specs.{AddsRow, AfterRowTurns, AreCountedAs, IsRowLen, mixed_in};

use crate::CoreCount;
use crate::block_mix::{mix, take_turn};
use crate::order::OrderedBlocks;
use crate::parts::Parts;
use crate::words::part;

/// The memory of a table: its capacity in words, and the words that are in it.
pub trait TableMemory {
    // the words
    ghost words: { Self → List ℕ };

    // the capacity in words
    ghost room: { Self → ℕ };

    /// Returns the words.
    fn words(&self) -> &[u32]
        ensures value { result.now ≡ words self.now };

    /// Writes a row at the index `at`.
    fn write(&mut self, at: usize, row: &[u32])
        requires inside { at ≤ length (words self.old) }
        requires room { at + length row.now ≤ room self.old }
        ensures words { take (at + length row.now) (words self.new) ≡ take at (words self.old) ++ row.now }
        ensures room { room self.old ≤ room self.new };

    /// Writes the block mix of row `i` as row `i + 1`, and counts its cores.
    ///
    /// A row has `len` words for each chunk.
    fn mix_next<O: OrderedBlocks>(&mut self, i: usize, len: usize, cores: &mut CoreCount)
        requires row { IsRowLen len }
        requires last { (i + 1) * (O.count * len) ≤ length (words self.old) }
        requires room { (i + 2) * (O.count * len) ≤ room self.old }
        ensures words { AddsRow (mixed_in O.pivot O.inverse_pivot 1) O.count len i (words self.old) (words self.new) }
        ensures room { room self.old ≤ room self.new }
        ensures counted { AreCountedAs O.diagonal (O.count * (2 * (len / 32))) cores.old cores.new };
}

/// The caller's buffer. Each row is computed directly in its final position.
#[derive(Drop)]
pub struct Buffer<'a> {
    memory: &'a mut [u32],
}

impl<'a> Buffer<'a> {
    ghost use Rattle.scrypt_kernel.specs.Memory.{buffer_room};

    /// Takes `memory`, whose contents do not matter.
    pub fn new(memory: &'a mut [u32]) -> Buffer<'a>
        ensures room { buffer_room result ≡ length memory.old }
    {
        Buffer { memory }
    }
}

impl<'a> TableMemory for Buffer<'a> {
    ghost use Rattle.scrypt_kernel.specs.Memory.{buffer_room};

    ghost words = { λ table. table.memory.now };

    ghost room = { buffer_room };

    #[inline(always)]
    fn words(&self) -> &[u32] {
        self.memory
    }

    #[inline(always)]
    fn write(&mut self, at: usize, row: &[u32]) {
        self.memory[at..at + row.len()].copy_from_slice(row);
    }

    #[inline(always)]
    fn mix_next<O: OrderedBlocks>(&mut self, i: usize, len: usize, cores: &mut CoreCount) {
        mix_next::<O>(self.memory, i, len, cores);
    }
}

// Writes the block mix of row `i` as row `i + 1`, and counts its cores.
#[inline(always)]
pub(crate) fn mix_next<O: OrderedBlocks>(
    memory: &mut [u32],
    i: usize,
    len: usize,
    cores: &mut CoreCount,
)
    requires row { IsRowLen len }
    requires room { (i + 2) * (O.count * len) ≤ length memory.old }
    ensures words { AddsRow (mixed_in O.pivot O.inverse_pivot 1) O.count len i memory.old memory.new }
    ensures rest { drop ((i + 2) * (O.count * len)) memory.new ≡ drop ((i + 2) * (O.count * len)) memory.old }
    ensures counted { AreCountedAs O.diagonal (O.count * (2 * (len / 32))) cores.old cores.new }
{
    let row_len = O::count() * len;
    let (rows, rest) = memory.split_at_mut((i + 1) * row_len);
    let last = Parts::of(part(row_len, rows, i), len, O::count());
    mix::<O, Parts<'_>>(&last, &mut rest[..row_len], len, cores);
}

/// Allocated memory, which is not filled with zeros first: a table uses only as much of its
/// capacity as it needs, and reuses the memory of an earlier table.
#[derive(Drop)]
pub struct Allocated {
    memory: Vec<u32>,
}

impl Allocated {
    ghost use Rattle.scrypt_kernel.specs.Memory.{allocated_room};

    /// Takes `memory`, whose contents do not matter.
    pub fn new(memory: Vec<u32>) -> Allocated
        ensures room { allocated_room result ≡ vec_capacity memory }
    {
        Allocated { memory }
    }

    // Makes the memory at least `len` words long. The new contents are unspecified.
    #[inline(always)]
    fn make_room(&mut self, len: usize)
        requires room { len ≤ allocated_room self.old }
        ensures long { len ≤ length self.new.memory.items }
        ensures words { take (length self.old.memory.items) self.new.memory.items ≡ self.old.memory.items }
        ensures len { length self.old.memory.items ≤ length self.new.memory.items }
        ensures room { allocated_room self.old ≤ allocated_room self.new }
    {
        if self.memory.len() < len {
            self.memory.resize(len, 0).unwrap();
        }
    }

    // Extends the memory by 32 words for each of `n` chunks, if it has fewer than `most` words and
    // the capacity suffices. The new contents are unspecified.
    #[inline(always)]
    fn lengthen(&mut self, n: usize, most: usize)
        ensures words { take (length self.old.memory.items) self.new.memory.items ≡ self.old.memory.items }
        ensures len { length self.old.memory.items ≤ length self.new.memory.items }
        ensures room { allocated_room self.old ≤ allocated_room self.new }
    {
        if self.memory.len() < most {
            'chunks: for _k in 0..n {
                if self.memory.capacity() - self.memory.len() >= 32 {
                    self.memory.extend_from_slice(&[0; 32]).unwrap();
                }
            }
        }
    }
}

impl TableMemory for Allocated {
    ghost use Rattle.scrypt_kernel.specs.Memory.{allocated_room};

    ghost words = { λ table. table.memory.items };

    ghost room = { allocated_room };

    #[inline(always)]
    fn words(&self) -> &[u32] {
        &self.memory
    }

    #[inline(always)]
    fn write(&mut self, at: usize, row: &[u32]) {
        self.make_room(at + row.len());
        self.memory[at..at + row.len()].copy_from_slice(row);
    }

    // Memory has to be written to be extended. Writing a whole row waits for each of its cache
    // lines to be fetched. Here the cache lines of the row after the next one are fetched a few in
    // each iteration, while the cores are computed.
    #[inline(always)]
    fn mix_next<O: OrderedBlocks>(&mut self, i: usize, len: usize, cores: &mut CoreCount) {
        let r = len / 32;
        let row_len = O::count() * len;
        let end = (i + 1) * row_len;
        self.make_room(end + row_len);
        let rows = self.memory.as_slice();
        let mut x = O::read(
            &Parts::of(part(row_len, rows, i), len, O::count()),
            2 * r - 1,
        );
        'turns: for j in 0..r {
            self.lengthen(O::count(), end + 2 * row_len);
            let memory = self.memory.as_mut_slice();
            x = take_turn_of_next::<O>(x, memory, end, row_len, i, j, len, cores);
        }
    }
}

// Does iteration `j` of the block mix of row `i`, which ends at `end`, into the `row_len` words
// after it, as row `i + 1`.
#[inline(always)]
fn take_turn_of_next<O: OrderedBlocks>(
    x: O,
    memory: &mut [u32],
    end: usize,
    row_len: usize,
    i: usize,
    j: usize,
    len: usize,
    cores: &mut CoreCount,
) -> O
    requires row { IsRowLen len }
    requires chunks { row_len ≡ O.count * len }
    requires last { end ≡ (i + 1) * (O.count * len) }
    requires room { end + row_len ≤ length memory.old }
    requires inside { j < len / 32 }
    ensures turned { (first : List ℕ)
        → AfterRowTurns O.pivot O.inverse_pivot O.count len i j (λ k. O.held x k) first memory.old
        → AfterRowTurns O.pivot O.inverse_pivot O.count len i (j + 1) (λ k. O.held result k) first memory.new }
    ensures len { length memory.new ≡ length memory.old }
    ensures counted { AreCountedAs O.diagonal (O.count * 2) cores.old cores.new }
{
    let (rows, rest) = memory.split_at_mut(end);
    let last = Parts::of(part(row_len, rows, i), len, O::count());
    take_turn::<O, Parts<'_>>(x, &last, &mut rest[..row_len], j, len, cores)
}
