//! Leases in use, and which of them a reading has reached.
ghost use Rattle.std.specs.Prelude.{◌≡◌, nat_le, if◌then◌else◌, Some};
ghost use Rattle.plx_lease.specs.Uses.{use_if as reached_lease, uses_of};
ghost use Rattle.plx_rules.specs.InUse.{first_reached as first};

/// A lease in use.
#[derive(Clone, Copy)]
pub struct InUse {
    /// The lease by its number: the root's is 0, those of the images follow, and then those of the
    /// extents.
    pub lease: u32,
    /// The moment up to which it is held, in milliseconds.
    pub until: u64,
}

impl InUse {
    ghost use Rattle.plx_lease.specs.Uses.{use_of, use_if};
    ghost use Rattle.plx_rules.specs.InUse.{is_before as is_named_before, earlier as earlier_of};

    /// Whether this lease is to be named before another: it is held up to an earlier moment, or to
    /// the same and comes first.
    pub fn is_before(self, other: InUse) -> bool
        ensures { result ≡ is_named_before (use_of self) (use_of other) }
    {
        self.until < other.until || (self.until == other.until && self.lease < other.lease)
    }

    /// Of this lease and another, where there is one, the one to be named.
    pub fn earlier(self, other: Option<InUse>) -> InUse
        ensures { use_of result ≡ earlier_of (use_of self) (use_if other) }
    {
        match other {
            Some(other) => {
                if other.is_before(self) {
                    return other;
                }
                self
            }
            None => self,
        }
    }

    /// The lease to be named of those that a reading has reached: this one may be among them, beside
    /// others.
    pub fn reached(self, others: Option<InUse>, reading: u64) -> Option<InUse>
        ensures { use_if result ≡ if nat_le self.until reading
            then Some (earlier_of (use_of self) (use_if others)) else use_if others }
    {
        if self.until <= reading {
            return Some(self.earlier(others));
        }
        others
    }
}

/// The lease, where there is one and a reading has reached it.
pub fn first_reached(lease: Option<InUse>, reading: u64) -> Option<InUse>
    ensures { reached_lease result ≡ first (uses_of lease) reading }
{
    lease?.reached(None, reading)
}
