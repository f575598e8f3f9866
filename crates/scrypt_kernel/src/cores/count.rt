//! The count of the cores that were run, and of the blocks that SHA-256 compressed. Nothing outside
//! the module `cores` can increment a count.

ghost use Rattle.std.specs.Prelude.{◌≡◌, ◌+◌, ◌/◌, ◌%◌, ℕ, Bool, if◌then◌else◌, List, length};
ghost use Rattle.std.specs.Borrow.{ftrue};
ghost use Rattle.scrypt_kernel.specs.Salsa.{salsa20_8};
ghost use Rattle.scrypt_kernel.specs.Diagonal.{diagonal_core};

use sha2::Sha256;
use std::marker::Model;

/// The number of Salsa20/8 cores that were run: all of them, and those on words in diagonal order
/// (`lanes`); and the number of blocks of 64 bytes that SHA-256 compressed (`compressions`).
///
/// Contracts see three numbers without an upper bound. At run time a count has no bytes, and no
/// running program reads it.
#[derive(Drop)]
pub struct CoreCount {
    seal: (),
    pub ghost all: { ℕ },
    pub ghost lanes: { ℕ },
    pub ghost compressions: { ℕ },
}

impl Model for CoreCount {
    ghost also_owns = { λ _. ftrue };
}

impl CoreCount {
    ghost use Rattle.sha2.specs.Hashers.{Holds256};
    ghost use Rattle.scrypt_kernel.specs.{AreCountedAs, AreHashed, message_cost};

    /// Creates a count of zero.
    pub fn new() -> CoreCount
        ensures none { (result.all ≡ 0) × (result.lanes ≡ 0) × (result.compressions ≡ 0) }
    {
        CoreCount::of()
    }

    // The count after one more core, whose input and output are the evidence that it was run. `one`
    // has whether their words are in diagonal order, and the three numbers after it.
    pub(super) fn after_core(_before: &CoreCount, _from: &[u32; 16], _to: &[u32; 16]) -> CoreCount
        ghost one: { Bool × ℕ × ℕ × ℕ }
        requires core { _to.now ≡ (if one.0 then diagonal_core _from.now else salsa20_8 _from.now) }
        requires all { one.1 ≡ _before.now.all + 1 }
        requires lanes { one.2 ≡ _before.now.lanes + (if one.0 then 1 else 0) }
        requires compressions { one.3 ≡ _before.now.compressions }
        ensures counted { AreCountedAs one.0 1 _before.now result }
    {
        CoreCount::of()
    }

    // The count after the compressions of this hasher, whose message is the evidence of their number:
    // it takes these bytes, and then it ends or not. `more` has the number, and the three numbers
    // after them.
    pub(super) fn after_compressions(
        _before: &CoreCount,
        _hasher: &Sha256,
        _data: &[u8],
        _ends: bool,
    ) -> CoreCount
        ghost more: { ℕ × ℕ × ℕ × ℕ }
        requires number { (m : List ℕ) → Holds256 _hasher.now m
            → let n = length m % 64 + length _data.now in more.0 ≡ (if _ends then message_cost n else n / 64) }
        requires all { more.1 ≡ _before.now.all }
        requires lanes { more.2 ≡ _before.now.lanes }
        requires compressions { more.3 ≡ _before.now.compressions + more.0 }
        ensures { AreHashed more.0 _before.now result }
    {
        CoreCount::of()
    }

    // Returns the count of these numbers.
    #[inline(always)]
    fn of() -> CoreCount
        ghost numbers: { ℕ × ℕ × ℕ }
        ensures { (result.all ≡ numbers.0) × (result.lanes ≡ numbers.1) × (result.compressions ≡ numbers.2) }
    {
        CoreCount { seal: () }
    }
}

const _: () = prove!(size_of::<CoreCount>() == 0);
