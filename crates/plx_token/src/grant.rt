//! The leases on which a write rests.
ghost use Rattle.std.specs.Prelude.{◌≡◌, nat_lt};
ghost use Rattle.plx_geom.specs.Geometry.{Geometry, IsLeaseName, lease_number};

use crate::held::Held;
use crate::kind::{Extent, Image, LeaseKind, Root};
use plx_base::LeaseName;

/// What stands of the leases on which a write rests: the least moment up to which one of them is
/// held, and which has it. Of several, that is the root's, or the image's with the least slot, or
/// the extent's with the least number.
#[derive(Drop)]
pub struct Grant {
    lease: LeaseName,
    until: u64,
}

impl Grant {
    ghost use Rattle.std.specs.Prelude.{Some};
    ghost use Rattle.plx_rules.specs.InUse.{earlier, is_before};
    ghost use Rattle.plx_token.specs.Grants.{grant_use};

    /// The root's lease alone.
    pub fn root(held: &Held<Root>) -> Grant
        ensures lease { result.lease ≡ LeaseName.Root }
        ensures until { result.until ≡ held.now.until }
    {
        Grant {
            lease: LeaseName::Root,
            until: held.until(),
        }
    }

    /// An image's lease alone.
    pub fn image(held: &Held<Image>) -> Grant
        ensures lease { result.lease ≡ LeaseName.Image held.now.lease.0 }
        ensures until { result.until ≡ held.now.until }
    {
        Grant {
            lease: held.name(),
            until: held.until(),
        }
    }

    /// An extent's lease alone.
    pub fn extent(held: &Held<Extent>) -> Grant
        ensures lease { result.lease ≡ LeaseName.Extent held.now.lease.0 }
        ensures until { result.until ≡ held.now.until }
    {
        Grant {
            lease: held.name(),
            until: held.until(),
        }
    }

    /// The leases of both: in a geometry that has both, the one to be named stands for them.
    pub fn and(self, other: Grant) -> Grant
        ensures { (g : Geometry) → IsLeaseName g self.lease → IsLeaseName g other.lease
            → grant_use g result ≡ earlier (grant_use g self) (Some (grant_use g other)) }
    {
        if other.is_sooner_than(&self) {
            other
        } else {
            self
        }
    }

    /// The guard of the write: the least moment up to which a lease is held, in milliseconds.
    pub fn guard(&self) -> u64
        ensures { result ≡ self.now.until }
    {
        self.until
    }

    /// The lease that has the least moment.
    pub fn least(&self) -> LeaseName
        ensures { result ≡ self.now.lease }
    {
        self.lease
    }

    // Whether this lease is to be named before another.
    fn is_sooner_than(&self, other: &Grant) -> bool
        ensures { (g : Geometry) → IsLeaseName g self.now.lease → IsLeaseName g other.now.lease
            → result ≡ is_before (grant_use g self.now) (grant_use g other.now) }
    {
        self.until < other.until
            || (self.until == other.until && comes_before(self.lease, other.lease))
    }
}

// Whether one lease comes before another: the root's, then those of images, then those of extents.
fn comes_before(one: LeaseName, other: LeaseName) -> bool
    ensures { (g : Geometry) → IsLeaseName g one → IsLeaseName g other
        → result ≡ nat_lt (lease_number g one) (lease_number g other) }
{
    match (one, other) {
        (_, LeaseName::Root) => false,
        (LeaseName::Root, _) => true,
        (LeaseName::Image(slot), LeaseName::Image(next)) => slot.0 < next.0,
        (LeaseName::Image(_), LeaseName::Extent(_)) => true,
        (LeaseName::Extent(_), LeaseName::Image(_)) => false,
        (LeaseName::Extent(extent), LeaseName::Extent(next)) => extent.0 < next.0,
    }
}
