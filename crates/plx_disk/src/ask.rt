//! What a boot asks, and what it is answered.

use plx_base::{Block, BlockNo, WriteKind};

/// What a boot asks for. Times and readings are in milliseconds.
#[derive(Clone, Copy, PartialEq, Eq)]
pub enum Ask {
    /// The bytes of a block.
    Read {
        block: BlockNo,
    },
    /// A write that may land up to 50 ms after its guard.
    Write {
        kind: WriteKind,
        block: BlockNo,
        guard: u64,
    },
    /// A reading of the clock.
    Clock,
    /// The first reading of the clock that is at least `from`.
    Until {
        from: u64,
    },
}

/// What a boot is answered.
#[derive(Drop)]
pub enum Answer {
    /// The bytes that stand in the block.
    Bytes(Block),
    /// The whole write has landed.
    Done,
    /// The clock's reading.
    Reading(u64),
    /// The write was not issued: this reading is above its guard.
    Missed(u64),
    /// The device failed. A write may have landed in part, or may land yet.
    Fault,
}
