//! Claims of leases.
ghost use Rattle.std.specs.Prelude.{◌≡◌, ◌<◌, ◌^◌};

use crate::held::Held;
use crate::kind::LeaseKind;
use plx_base::{Claim, LeaseRecord};

/// How long a lease is held from its claim's sample on, in milliseconds.
const TERM: u64 = 10_000;

/// A claim that was written, but isn't confirmed. It can't be copied.
#[derive(Drop)]
pub struct Claimed<K> {
    lease: K,
    claim: Claim,
    ghost number: { claim.number < 2 ^ 40 },
    ghost sample: { claim.sample < 2 ^ 48 },
}

/// Why a claim isn't confirmed.
#[derive(Clone, Copy, PartialEq, Eq)]
pub enum Unconfirmed {
    /// Another record stands there.
    NotMine { seen: LeaseRecord },
    /// The lease would be over at this reading.
    TooLate { now: u64 },
}

impl<K: LeaseKind> Claimed<K> {
    ghost use Rattle.plx_token.specs.Confirming.{Confirms};

    /// The claim of a lease.
    pub fn new(lease: K, claim: Claim) -> Claimed<K>
        requires number { claim.number < 2 ^ 40 }
        requires sample { claim.sample < 2 ^ 48 }
        ensures lease { result.lease ≡ lease }
        ensures claim { result.claim ≡ claim }
    {
        Claimed { lease, claim }
    }

    /// The lease is held where its record, read again, is the claim's own, and the reading before is
    /// early enough.
    pub fn confirm(self, seen: &LeaseRecord, now: u64) -> Result<Held<K>, Unconfirmed>
        ensures { Confirms self.lease self.claim seen.now now result }
    {
        let until = self.claim.sample + TERM;
        if until <= now {
            return Err(Unconfirmed::TooLate { now });
        }
        let own = LeaseRecord::Claimed {
            claim: self.claim,
            until,
        };
        if *seen != own {
            return Err(Unconfirmed::NotMine { seen: *seen });
        }
        Ok(Held {
            lease: self.lease,
            claim: self.claim,
            until,
        })
    }
}
