//! The renewal of a lease.
ghost use Rattle.std.specs.Prelude.{◌≡◌, ◌≤◌, ◌<◌, ◌+◌, ◌^◌, ℕ, Some, None};
ghost use Rattle.plx_base.specs.declared.lease.LeaseRecord.TheVariants.{Claimed};
ghost use Rattle.plx_gate.specs.Leases.{IsClaimed, lease_bytes};
ghost use Rattle.plx_rules.specs.Commands.{later_of as later_one};

use crate::in_use::InUse;
use crate::spell::spell_lease;
use plx_base::{Block, BlockNo, Claim, LeaseRecord, WriteKind};
use plx_disk::{Answer, Ask};
use plx_token::{Held, LeaseKind};

/// How long a lease is renewed from the reading on, in milliseconds.
const TERM: u64 = 10_000;

/// How a renewal ends.
#[derive(Clone, Copy)]
pub enum RenewalEnd {
    /// The lease is held up to the later moment.
    Renewed,
    /// The write was missed.
    Lost { due: InUse, reading: u64 },
    /// The write failed.
    WriteFault,
}

/// The renewal of a held lease, at its write.
#[derive(Clone, Copy)]
pub struct LeaseRenewal {
    number: u32,
    claim: Claim,
    until: u64,
    later: u64,
    ghost limits: { IsClaimed claim later },
    ghost after: { until ≤ later },
    ghost high: { later < 2 ^ 49 },
}

impl LeaseRenewal {
    ghost use Rattle.plx_disk.specs.declared.ask.Answer.{Answer};
    ghost use Rattle.plx_geom.specs.Geometry.{lease_at};
    ghost use Rattle.plx_rules.specs.Process.{answered, standing, bytes_out};
    ghost use Rattle.plx_rules.specs.Boot.{Fits};
    ghost use Rattle.plx_rules.specs.Commands.{later_of};
    ghost use Rattle.plx_rules.specs.Machines.{AreWhole, AsksOnly, rest_after};
    ghost use Rattle.plx_rules.specs.Times.{term};
    ghost use Rattle.law_run.specs.Renewals.{renewal_process};
    ghost use Rattle.plx_lease.specs.Renewing.{LeavesRenewal, renewal_ask, renewal_end, renewal_hold, renewal_rest};
    ghost use Rattle.plx_lease.specs.Holding.{lease_after};

    /// The renewal of a lease that is held, in this block, by the command's first reading.
    pub fn begin<K: LeaseKind>(held: &Held<K>, block: BlockNo, reading: u64) -> LeaseRenewal
        requires low { 1 ≤ block.0 }
        requires high { block.0 ≤ 2 ^ 32 }
        requires reading { reading < 2 ^ 48 }
        ensures rest { (place : ℕ) → block.0 ≡ lease_at place →
            renewal_rest result ≡ renewal_process place held.now.claim held.now.until
            (later_of held.now.until (reading + term)) }
        ensures number { (place : ℕ) → block.0 ≡ lease_at place → result.number ≡ place }
        ensures claim { result.claim ≡ held.now.claim }
        ensures until { result.until ≡ held.now.until }
        ensures later { result.later ≡ later_of held.now.until (reading + term) }
    {
        let claim = held.claim();
        let until = held.until();
        LeaseRenewal {
            number: (block.0 - 1) as u32,
            claim,
            until,
            later: later(until, reading + TERM),
        }
    }

    /// The number of the lease.
    pub fn number(&self) -> u32
        ensures { result ≡ self.now.number }
    {
        self.number
    }

    /// The moment up to which the lease is held once it is renewed, in milliseconds.
    pub fn later(&self) -> u64
        ensures { result ≡ self.now.later }
    {
        self.later
    }

    /// The block of the lease.
    pub fn block(&self) -> BlockNo
        ensures { result.0 ≡ lease_at self.now.number }
    {
        BlockNo(1 + u64::from(self.number))
    }

    /// The ask that stands.
    pub fn ask(&self) -> Ask
        ensures ask { Some result ≡ standing (renewal_rest self.now) }
        ensures own { AsksOnly (lease_at self.now.number) result }
    {
        Ask::Write {
            kind: WriteKind::Renew,
            block: self.block(),
            guard: self.until,
        }
    }

    /// Makes a block the bytes of the write that is asked for.
    pub fn spell(&self, block: &mut Block)
        ensures bytes { block.new ≡ bytes_out (renewal_rest self.now) }
        ensures whole { AreWhole (standing (renewal_rest self.now)) block.new }
    {
        spell_lease(
            &LeaseRecord::Claimed {
                claim: self.claim,
                until: self.later,
            },
            block,
        );
    }

    /// The ask is answered.
    pub fn answer(&mut self, answer: &Answer) -> Option<RenewalEnd>
        ensures rest { rest_after renewal_end (renewal_rest self.new) result
            ≡ answered (renewal_rest self.old) answer.now }
        ensures hold { Fits (renewal_ask self.old) answer.now →
            LeavesRenewal
            (lease_after None (renewal_ask self.old) (bytes_out (renewal_rest self.old)) answer.now
            (renewal_hold self.old)) self.new result }
        ensures kept { self.new ≡ self.old }
    {
        match answer {
            Answer::Done => Some(RenewalEnd::Renewed),
            Answer::Fault => Some(RenewalEnd::WriteFault),
            Answer::Missed(reading) => Some(RenewalEnd::Lost {
                due: InUse {
                    lease: self.number,
                    until: self.until,
                },
                reading: *reading,
            }),
            _ => None,
        }
    }
}

/// The later of two moments, in milliseconds.
pub fn later(until: u64, end: u64) -> u64
    ensures { result ≡ later_one until end }
{
    if until <= end { end } else { until }
}
