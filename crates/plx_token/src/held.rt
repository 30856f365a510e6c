//! Leases that are held.
ghost use Rattle.std.specs.Prelude.{◌≡◌, ◌≤◌, ◌<◌, ◌+◌, ◌^◌};

use crate::kind::LeaseKind;
use plx_base::{Claim, LeaseName};

/// A lease that is held. It comes from a confirmed claim, and can't be copied.
#[derive(Drop)]
pub struct Held<K> {
    pub(crate) lease: K,
    pub(crate) claim: Claim,
    pub(crate) until: u64,
    ghost number: { claim.number < 2 ^ 40 },
    ghost sample: { claim.sample < 2 ^ 48 },
    ghost low: { claim.sample + 10000 ≤ until },
    ghost high: { until < 2 ^ 49 },
}

impl<K: LeaseKind> Held<K> {
    /// Which lease.
    pub fn lease(&self) -> K
        ensures { result ≡ self.now.lease }
    {
        self.lease
    }

    /// What the lease is called.
    pub fn name(&self) -> LeaseName
        ensures { result ≡ K.called self.now.lease }
    {
        self.lease.name()
    }

    /// The claim by which the lease is held.
    pub fn claim(&self) -> Claim
        ensures { result ≡ self.now.claim }
    {
        self.claim
    }

    /// The moment up to which the lease is held, in milliseconds.
    pub fn until(&self) -> u64
        ensures { result ≡ self.now.until }
    {
        self.until
    }

    /// The lease once its renewal is done: it is held up to a later moment.
    pub fn renewed(self, until: u64) -> Held<K>
        requires later { self.until ≤ until }
        requires high { until < 2 ^ 49 }
        ensures lease { result.lease ≡ self.lease }
        ensures claim { result.claim ≡ self.claim }
        ensures until { result.until ≡ until }
    {
        Held {
            lease: self.lease,
            claim: self.claim,
            until,
        }
    }

    /// The lease is given back: its release is asked.
    pub fn released(self) {}

    /// The lease is let go with no release.
    pub fn dropped(self) {}
}
