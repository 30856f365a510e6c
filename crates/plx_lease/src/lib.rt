//! Leases: claims, renewals and releases as machines, and the leases that a boot holds.
#![tactic(auto)]

mod claim;
mod claim_end;
mod claiming;
mod in_use;
mod release;
mod releasing;
mod renewal;
mod renewing;
mod spell;
mod tokens;

pub use claim::LeaseClaim;
pub use claim_end::ClaimEnd;
pub use claiming::Claiming;
pub use in_use::{InUse, first_reached};
pub use release::{LeaseRelease, ReleaseEnd};
pub use releasing::Releasing;
pub use renewal::{LeaseRenewal, RenewalEnd, later};
pub use renewing::{Renewing, RenewingEnd};
pub use spell::spell_lease;
pub use tokens::Tokens;
