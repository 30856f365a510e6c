//! Pointers of the trees.
ghost use Rattle.std.specs.Prelude.{◌≡◌, ◌<◌, ◌≤◌, ◌+◌, ◌^◌, ◌↔◌, IsNone, IsSome, IfSome, IsTrue};
ghost use Rattle.plx_base.specs.Pointers.{IsPointer, IsMarked, without_mark, with_mark};

use crate::numbers::BlockNo;
use std::marker::Model;

/// Bit 63, the writable mark.
const MARK: u64 = 1 << 63;

/// The first block number that no pointer holds.
const BLOCKS_END: u64 = 1 << 26;

/// A pointer to a block, writable or frozen, or a hole.
#[derive(Clone, Copy, PartialEq, Eq)]
pub struct Ptr {
    value: u64,
}

impl Model for Ptr {
    ghost use Rattle.std.specs.Prelude.{ℕ};
    ghost use Rattle.plx_base.specs.Pointers.{IsPointer};

    ghost Value = { ℕ };

    ghost view = { λ p. p.value };

    ghost invariant = { λ p. IsPointer p.value };

    ghost inverse = { λ n. record { value = n } };
}

impl Ptr {
    /// The pointer to nothing, which reads as zeros.
    pub fn hole() -> Ptr
        ensures { result ≡ 0 }
    {
        Ptr { value: 0 }
    }

    /// The pointer to a block that may be written in place.
    pub fn writable(block: BlockNo) -> Ptr
        requires low { 1 ≤ block.0 }
        requires high { block.0 < 2 ^ 26 }
        ensures { result ≡ with_mark block.0 }
    {
        Ptr {
            value: block.0 + MARK,
        }
    }

    /// The pointer to a block that may not be written in place.
    pub fn frozen(block: BlockNo) -> Ptr
        requires low { 1 ≤ block.0 }
        requires high { block.0 < 2 ^ 26 }
        ensures { result ≡ block.0 }
    {
        Ptr { value: block.0 }
    }

    /// The block that it points to, or nothing for a hole.
    pub fn block(self) -> Option<BlockNo>
        ensures hole { IsNone result ↔ (self ≡ 0) }
        ensures block { IfSome result (λ b. b.0 ≡ without_mark self) }
        ensures range { IfSome result (λ b. (1 ≤ b.0) × (b.0 < 2 ^ 26)) }
    {
        if self.value == 0 {
            return None;
        }
        Some(BlockNo(self.value % MARK))
    }

    /// Whether it carries the writable mark.
    pub fn is_writable(self) -> bool
        ensures { IsTrue result ↔ IsMarked self }
    {
        self.value >= MARK
    }

    /// The pointer to the same block without the mark.
    pub fn without_mark(self) -> Ptr
        ensures { result ≡ without_mark self }
    {
        Ptr {
            value: self.value % MARK,
        }
    }

    /// The number that is stored.
    pub fn value(self) -> u64
        ensures same { result ≡ self }
        ensures pointer { IsPointer self }
    {
        self.value
    }

    /// The pointer of a stored number.
    pub fn read(value: u64) -> Option<Ptr>
        ensures pointer { IsSome result ↔ IsPointer value }
        ensures same { IfSome result (λ p. p ≡ value) }
    {
        let block = value % MARK;
        if value == 0 || (1 <= block && block < BLOCKS_END) {
            return Some(Ptr { value });
        }
        None
    }
}
