//! The memory of a renew.
ghost use Rattle.std.specs.Prelude.{◌≡◌, ◌≤◌, [], IfOk};
ghost use Rattle.std.specs.Vec.{vec_capacity};

use plx_base::NoMemory;
use plx_lease::LeaseRenewal;
use std::alloc::Global;

/// The memory of a renew: renewals, for so many leases.
#[derive(Drop)]
pub struct Renewals {
    pub leases: u32,
    pub list: Vec<LeaseRenewal>,
    ghost room: { leases ≤ vec_capacity list },
    ghost empty: { list.items ≡ [] },
}

impl Renewals {
    /// Room for the renewals of so many leases.
    pub fn new(alloc: Global, leases: u32) -> Result<Renewals, NoMemory>
        ensures { IfOk result (λ r. r.leases ≡ leases) }
    {
        let list = Vec::with_capacity(alloc, leases as usize)?;
        Ok(Renewals { leases, list })
    }
}
