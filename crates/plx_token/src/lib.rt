//! Leases as tokens: a lease is held by the one value that a confirmed claim gave.
#![tactic(auto)]

mod claimed;
mod fresh;
mod grant;
mod held;
mod kind;

pub use claimed::{Claimed, Unconfirmed};
pub use fresh::Fresh;
pub use grant::Grant;
pub use held::Held;
pub use kind::{Extent, Image, LeaseKind, Root};
