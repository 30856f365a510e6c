//! The release of a lease.
ghost use Rattle.std.specs.Prelude.{◌≡◌, ◌≤◌, ◌<◌, ◌^◌, ℕ, Some, None};
ghost use Rattle.plx_base.specs.declared.lease.LeaseRecord.TheVariants.{Free};
ghost use Rattle.plx_gate.specs.Leases.{lease_bytes};

use crate::in_use::InUse;
use crate::spell::spell_lease;
use plx_base::{Block, BlockNo, LeaseRecord, WriteKind};
use plx_disk::{Answer, Ask};
use plx_token::{Held, LeaseKind};

/// How a release ends.
#[derive(Clone, Copy)]
pub enum ReleaseEnd {
    /// The lease is free.
    Released,
    /// The write was missed.
    Lost { due: InUse, reading: u64 },
    /// The write failed.
    WriteFault,
}

/// The release of a lease that was held, at its write.
#[derive(Drop)]
pub struct LeaseRelease {
    number: u32,
    until: u64,
    out: Block,
    ghost high: { until < 2 ^ 49 },
    ghost spelled: { out ≡ lease_bytes Free },
}

impl LeaseRelease {
    ghost use Rattle.plx_disk.specs.declared.ask.Answer.{Answer};
    ghost use Rattle.plx_geom.specs.Geometry.{lease_at};
    ghost use Rattle.plx_rules.specs.Process.{answered, standing, bytes_out};
    ghost use Rattle.plx_rules.specs.Boot.{Fits};
    ghost use Rattle.plx_rules.specs.Holds.{Hold, Nothing};
    ghost use Rattle.plx_rules.specs.Machines.{AreWhole, AsksOnly, rest_after};
    ghost use Rattle.law_run.specs.Releases.{release_process};
    ghost use Rattle.plx_lease.specs.Releasing.{release_ask, release_end, release_rest};
    ghost use Rattle.plx_lease.specs.Holding.{lease_after};

    /// The release of a lease that is held, in this block, with a block for what it writes: from here
    /// on it isn't held.
    pub fn begin<K: LeaseKind>(held: Held<K>, block: BlockNo, out: Block) -> LeaseRelease
        requires low { 1 ≤ block.0 }
        requires high { block.0 ≤ 2 ^ 32 }
        ensures number { (place : ℕ) → block.0 ≡ lease_at place → result.number ≡ place }
        ensures rest { (place : ℕ) → block.0 ≡ lease_at place →
            release_rest result ≡ release_process place held.until }
    {
        let until = held.until();
        held.released();
        let mut out = out;
        spell_lease(&LeaseRecord::Free, &mut out);
        LeaseRelease {
            number: (block.0 - 1) as u32,
            until,
            out,
        }
    }

    /// The ask that stands.
    pub fn ask(&self) -> Ask
        ensures ask { Some result ≡ standing (release_rest self.now) }
        ensures own { AsksOnly (lease_at self.now.number) result }
    {
        Ask::Write {
            kind: WriteKind::Release,
            block: BlockNo(1 + u64::from(self.number)),
            guard: self.until,
        }
    }

    /// The bytes of the write that is asked for.
    pub fn out(&self) -> &[u8]
        ensures bytes { result.now ≡ bytes_out (release_rest self.now) }
        ensures whole { AreWhole (standing (release_rest self.now)) result.now }
    {
        self.out.as_slice()
    }

    /// The ask is answered.
    pub fn answer(&mut self, answer: &Answer) -> Option<ReleaseEnd>
        ensures rest { rest_after release_end (release_rest self.new) result
            ≡ answered (release_rest self.old) answer.now }
        ensures hold { (hold : Hold) → Fits (release_ask self.old) answer.now →
            lease_after None (release_ask self.old) self.old.out answer.now hold ≡ Nothing }
        ensures kept { self.new ≡ self.old }
    {
        match answer {
            Answer::Done => Some(ReleaseEnd::Released),
            Answer::Fault => Some(ReleaseEnd::WriteFault),
            Answer::Missed(reading) => Some(ReleaseEnd::Lost {
                due: InUse {
                    lease: self.number,
                    until: self.until,
                },
                reading: *reading,
            }),
            _ => None,
        }
    }
}
