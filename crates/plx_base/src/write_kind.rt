//! The kinds of a write.

/// Why a block is written.
#[derive(Clone, Copy, PartialEq, Eq)]
pub enum WriteKind {
    /// A lease is claimed.
    Claim,
    /// A held lease is prolonged.
    Renew,
    /// A held lease becomes free.
    Release,
    /// Bits of an extent's map become set.
    Take,
    /// Bits of blocks that were never linked become clear.
    Give,
    /// Bits of unmarked blocks become clear.
    Sweep,
    /// A block that nothing links is filled.
    Fresh,
    /// One pointer of a node is changed.
    Link,
    /// A data block is changed in place.
    Overwrite,
    /// An image record is changed.
    Record,
    /// A snapshot log is changed.
    Log,
    /// The data of a journal slot.
    JData,
    /// The descriptor that commits a journal slot.
    JCommit,
}
