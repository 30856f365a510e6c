//! What a lease is called, and what its record says.
use crate::numbers::{Boot, ExtentNo, SlotNo};

/// One claim of a lease.
#[derive(Clone, Copy, PartialEq, Eq)]
pub struct Claim {
    /// The boot that claims.
    pub boot: Boot,
    /// How many claims that boot began before.
    pub number: u64,
    /// The clock reading on which the claim rests, in milliseconds.
    pub sample: u64,
}

/// Which lease.
#[derive(Clone, Copy, PartialEq, Eq)]
pub enum LeaseName {
    Root,
    Image(SlotNo),
    Extent(ExtentNo),
}

/// What a lease's block says.
#[derive(Clone, Copy, PartialEq, Eq)]
pub enum LeaseRecord {
    Free,
    /// Claimed up to the moment `until`, in milliseconds.
    Claimed { claim: Claim, until: u64 },
}
