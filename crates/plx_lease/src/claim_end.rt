//! How a claim ends.
use crate::in_use::InUse;
use plx_base::LeaseRecord;
use plx_token::Held;

/// How a claim of a lease ends.
#[derive(Drop)]
pub enum ClaimEnd<K> {
    /// The lease is held.
    Held(Held<K>),
    /// Another record stands there, or one that isn't expired.
    Busy { seen: LeaseRecord },
    /// A reading has reached a lease in use, or was past the guard of the claim's write.
    Lost { due: InUse, reading: u64 },
    /// A read of the lease failed.
    ReadFault,
    /// The write of the claim failed.
    WriteFault,
    /// The bytes read are no lease.
    Damaged,
}
