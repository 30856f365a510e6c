//! A claim of a lease.
ghost use Rattle.std.specs.Prelude.{◌≡◌, ◌≤◌, ◌<◌, ◌+◌, ◌^◌, ◌∷◌, ℕ, Option, Some, None};
ghost use Rattle.plx_gate.specs.Leases.{lease_bytes};
ghost use Rattle.plx_rules.specs.Process.{Ends};
ghost use Rattle.plx_rules.specs.Claims.{ClaimLost, ClaimDamaged, own_record as own};
ghost use Rattle.plx_rules.specs.InUse.{first_reached as first, unless_reached};
ghost use Rattle.plx_rules.specs.Times.{is_expired as is_expired_for};
ghost use Rattle.plx_lease.specs.Uses.{use_if as reached_lease};
ghost use Rattle.plx_lease.specs.ClaimEnds.{claim_end as claim_end_of};

use crate::claim_end::ClaimEnd;
use crate::in_use::{InUse, first_reached};
use crate::spell::spell_lease;
use plx_base::{Block, BlockNo, Boot, Claim, LeaseRecord, WriteKind};
use plx_disk::{Answer, Ask};
use plx_gate::read_lease;
use plx_token::{Claimed, LeaseKind, Unconfirmed};

/// A claim's write may land until so long after its sample, in milliseconds.
const WINDOW: u64 = 200;

/// A claim waits for a reading so long after its sample, in milliseconds.
const WAIT: u64 = 601;

/// How long a lease is held from its claim's sample on, in milliseconds.
const TERM: u64 = 10_000;

/// A lease is expired for a sample so long after its end, in milliseconds.
const GRACE: u64 = 100;

/// Where a claim stands.
#[derive(Clone, Copy)]
pub enum ClaimAt {
    /// At its sample.
    Sample,
    /// At the first read of the lease.
    Read,
    /// At the reading after the first read gave bytes that are no lease.
    Damaged,
    /// At the write of the claim.
    Write,
    /// At the wait.
    Wait,
    /// At the second read of the lease.
    Reread,
    /// At the reading after the second read gave bytes that are no lease.
    DamagedLate,
}

/// A claim of a lease, at one of its asks.
#[derive(Drop)]
pub struct LeaseClaim<K> {
    at: ClaimAt,
    lease: K,
    number: u32,
    claim: Claim,
    last: u64,
    others: Option<InUse>,
    out: Block,
    ghost boot: { claim.boot.0 < 2 ^ 128 },
    ghost count: { claim.number < 2 ^ 40 },
    ghost sample: { claim.sample < 2 ^ 48 },
    ghost early: { last < claim.sample + 10000 },
    ghost spelled: { out ≡ lease_bytes (own claim) },
}

impl<K: LeaseKind> LeaseClaim<K> {
    ghost use Rattle.std.specs.Str.{bytes_eq};
    ghost use Rattle.plx_disk.specs.declared.ask.Answer.{Answer};
    ghost use Rattle.plx_geom.specs.Geometry.{lease_at};
    ghost use Rattle.plx_gate.specs.Leases.{read_lease as lease_in};
    ghost use Rattle.plx_rules.specs.Process.{answered, standing, bytes_out};
    ghost use Rattle.plx_rules.specs.Boot.{Fits};
    ghost use Rattle.plx_rules.specs.Claims.{claim_in_time, claim_of, claim_process, end_of_term, own_use, reread_by, reread_process, seen_process};
    ghost use Rattle.plx_rules.specs.Holds.{Hold, Nothing, Wrote, Held, sample_of, seen_by, hold_after_reading, hold_after_claim, hold_after_reread as confirmed};
    ghost use Rattle.plx_rules.specs.Machines.{AreWhole, AsksOnly, IsTimely, rest_after};
    ghost use Rattle.plx_rules.specs.Times.{wait};
    ghost use Rattle.plx_lease.specs.Uses.{use_of, uses_of};
    ghost use Rattle.plx_lease.specs.ClaimEnds.{claim_end};
    ghost use Rattle.plx_lease.specs.Claiming.{KeepsLease, claim_rest, claim_read_process, wait_process};
    ghost use Rattle.plx_lease.specs.Holding.{IsSampled, LeavesClaim, claim_ask, claim_hold, claim_sample, lease_after};

    /// The claim of a lease in this block by a boot that began so many claims before, with a block
    /// for what it writes; another lease may be in use beside it.
    pub fn begin(
        lease: K,
        block: BlockNo,
        boot: Boot,
        number: u64,
        others: Option<InUse>,
        out: Block,
    ) -> LeaseClaim<K>
        requires low { 1 ≤ block.0 }
        requires high { block.0 ≤ 2 ^ 32 }
        requires number { number < 2 ^ 40 }
        ensures rest { (place : ℕ) → block.0 ≡ lease_at place →
            claim_rest result ≡ claim_process boot.0 (uses_of others) place number }
        ensures hold { claim_hold result ≡ Nothing }
        ensures sampled { (last : Option ℕ) → IsSampled result last }
        ensures lease { result.lease ≡ lease }
        ensures number { (place : ℕ) → block.0 ≡ lease_at place → result.number ≡ place }
    {
        let claim = Claim {
            boot,
            number,
            sample: 0,
        };
        let mut out = out;
        spell_lease(&own_record(claim), &mut out);
        LeaseClaim {
            at: ClaimAt::Sample,
            lease,
            number: (block.0 - 1) as u32,
            claim,
            last: 0,
            others,
            out,
        }
    }

    /// In place of this claim another one begins.
    pub fn begin_next(
        &mut self,
        lease: K,
        block: BlockNo,
        boot: Boot,
        number: u64,
        others: Option<InUse>,
    )
        requires low { 1 ≤ block.0 }
        requires high { block.0 ≤ 2 ^ 32 }
        requires number { number < 2 ^ 40 }
        ensures rest { (place : ℕ) → block.0 ≡ lease_at place →
            claim_rest self.new ≡ claim_process boot.0 (uses_of others) place number }
        ensures hold { claim_hold self.new ≡ Nothing }
        ensures sampled { (last : Option ℕ) → IsSampled self.new last }
        ensures lease { self.new.lease ≡ lease }
        ensures number { (place : ℕ) → block.0 ≡ lease_at place → self.new.number ≡ place }
    {
        let claim = Claim {
            boot,
            number,
            sample: 0,
        };
        spell_lease(&own_record(claim), &mut self.out);
        self.at = ClaimAt::Sample;
        self.lease = lease;
        self.number = (block.0 - 1) as u32;
        self.claim = claim;
        self.last = 0;
        self.others = others;
    }

    /// The ask that stands.
    pub fn ask(&self) -> Ask
        ensures ask { Some result ≡ standing (claim_rest self.now) }
        ensures own { AsksOnly (lease_at self.now.number) result }
    {
        match self.at {
            ClaimAt::Sample | ClaimAt::Damaged | ClaimAt::DamagedLate => Ask::Clock,
            ClaimAt::Read | ClaimAt::Reread => Ask::Read {
                block: self.block(),
            },
            ClaimAt::Write => Ask::Write {
                kind: WriteKind::Claim,
                block: self.block(),
                guard: self.claim.sample + WINDOW,
            },
            ClaimAt::Wait => Ask::Until {
                from: self.claim.sample + WAIT,
            },
        }
    }

    /// The bytes of the write that is asked for.
    pub fn out(&self) -> &[u8]
        ensures bytes { result.now ≡ bytes_out (claim_rest self.now) }
        ensures whole { AreWhole (standing (claim_rest self.now)) result.now }
    {
        match self.at {
            ClaimAt::Write => self.out.as_slice(),
            ClaimAt::Sample
            | ClaimAt::Read
            | ClaimAt::Damaged
            | ClaimAt::Wait
            | ClaimAt::Reread
            | ClaimAt::DamagedLate => &[],
        }
    }

    /// The ask is answered.
    pub fn answer(&mut self, answer: &Answer) -> Option<ClaimEnd<K>>
        requires { IsTimely answer.now }
        ensures rest { rest_after claim_end (claim_rest self.new) result
            ≡ answered (claim_rest self.old) answer.now }
        ensures hold { Fits (claim_ask self.old) answer.now →
            LeavesClaim (lease_after (claim_sample self.old)
            (claim_ask self.old) self.old.out answer.now (claim_hold self.old))
            (sample_of answer.now) self.new result }
        ensures kept { KeepsLease self.old self.new result }
    {
        match (self.at, answer) {
            (ClaimAt::Sample, Answer::Reading(reading)) => self.after_sample(*reading),
            (ClaimAt::Read, Answer::Bytes(bytes)) => self.after_read(bytes),
            (ClaimAt::Damaged, Answer::Reading(reading)) => {
                Some(damaged_at(first_reached(self.others, *reading), *reading))
            }
            (ClaimAt::Write, Answer::Done) => self.after_write(),
            (ClaimAt::Write, Answer::Fault) => Some(ClaimEnd::WriteFault),
            (ClaimAt::Write, Answer::Missed(reading)) => Some(ClaimEnd::Lost {
                due: InUse {
                    lease: self.number,
                    until: self.claim.sample + WINDOW,
                },
                reading: *reading,
            }),
            (ClaimAt::Wait, Answer::Reading(reading)) => self.after_wait(*reading),
            (ClaimAt::Reread, Answer::Bytes(bytes)) => self.after_reread(bytes),
            (ClaimAt::DamagedLate, Answer::Reading(reading)) => {
                Some(damaged_at(self.reached(*reading), *reading))
            }
            (ClaimAt::Read | ClaimAt::Reread, Answer::Fault) => Some(ClaimEnd::ReadFault),
            _ => None,
        }
    }

    // The sample was read: the lease is read, unless the reading has reached the lease in use.
    fn after_sample(&mut self, reading: u64) -> Option<ClaimEnd<K>>
        requires { reading < 2 ^ 48 }
        ensures rest { rest_after claim_end (claim_rest self.new) result
            ≡ claim_in_time (uses_of self.old.others) reading
            (claim_read_process (uses_of self.old.others) self.old.number
            (claim_of self.old.claim.boot.0 self.old.claim.number reading)) }
        ensures hold { LeavesClaim Nothing (Some reading) self.new result }
        ensures kept { KeepsLease self.old self.new result }
    {
        if let Some(due) = first_reached(self.others, reading) {
            return Some(ClaimEnd::Lost { due, reading });
        }
        self.claim.sample = reading;
        self.last = reading;
        spell_lease(&own_record(self.claim), &mut self.out);
        self.at = ClaimAt::Read;
        None
    }

    // The lease was read: the claim is written where it is expired.
    fn after_read(&mut self, bytes: &Block) -> Option<ClaimEnd<K>>
        ensures rest { rest_after claim_end (claim_rest self.new) result
            ≡ seen_process (uses_of self.old.others) self.old.number self.old.claim
            (lease_in bytes.now) }
        ensures hold { LeavesClaim (seen_by
            (lease_in bytes.now) self.old.claim.sample) None self.new result }
        ensures kept { KeepsLease self.old self.new result }
    {
        match read_lease(bytes.as_slice()) {
            None => {
                self.at = ClaimAt::Damaged;
                None
            }
            Some(seen) => {
                if !is_expired(&seen, self.claim.sample) {
                    return Some(ClaimEnd::Busy { seen });
                }
                self.at = ClaimAt::Write;
                None
            }
        }
    }

    // The claim is written: it waits.
    fn after_write(&mut self) -> Option<ClaimEnd<K>>
        ensures rest { rest_after claim_end (claim_rest self.new) result ≡ wait_process self.old }
        ensures hold { LeavesClaim (hold_after_claim (lease_in self.old.out)) None self.new result }
        ensures kept { KeepsLease self.old self.new result }
    {
        self.at = ClaimAt::Wait;
        None
    }

    // The wait is over: the lease is read again, unless the reading has reached a lease in use.
    fn after_wait(&mut self, reading: u64) -> Option<ClaimEnd<K>>
        ensures rest { rest_after claim_end (claim_rest self.new) result
            ≡ claim_in_time (own_use self.old.number self.old.claim ∷
            uses_of self.old.others) reading
            (reread_process (own_use self.old.number self.old.claim ∷
            uses_of self.old.others) self.old.number self.old.claim) }
        ensures hold { self.old.claim.sample + wait ≤ reading →
            LeavesClaim (hold_after_reading reading
            (Wrote self.old.claim (end_of_term self.old.claim))) (Some reading) self.new result }
        ensures kept { KeepsLease self.old self.new result }
    {
        if let Some(due) = self.reached(reading) {
            return Some(ClaimEnd::Lost { due, reading });
        }
        self.last = reading;
        self.at = ClaimAt::Reread;
        None
    }

    // The lease was read again: it is held where its record is the claim's own.
    fn after_reread(&mut self, bytes: &Block) -> Option<ClaimEnd<K>>
        ensures rest { rest_after claim_end (claim_rest self.new) result
            ≡ reread_by (bytes_eq bytes.now (lease_bytes (own self.old.claim)))
            (own_use self.old.number self.old.claim ∷ uses_of self.old.others) self.old.claim
            (lease_in bytes.now) }
        ensures hold { LeavesClaim (confirmed
            (bytes_eq bytes.now (lease_bytes (own self.old.claim)))
            (Held self.old.claim (end_of_term self.old.claim))) None self.new result }
        ensures kept { KeepsLease self.old self.new result }
    {
        match read_lease(bytes.as_slice()) {
            None => {
                self.at = ClaimAt::DamagedLate;
                None
            }
            Some(seen) => {
                match Claimed::new(self.lease, self.claim).confirm(&seen, self.last) {
                    Ok(held) => Some(ClaimEnd::Held(held)),
                    Err(Unconfirmed::NotMine { seen }) => Some(ClaimEnd::Busy { seen }),
                    Err(Unconfirmed::TooLate { now }) => Some(ClaimEnd::Lost {
                        due: self.own_use(),
                        reading: now,
                    }),
                }
            }
        }
    }

    // The block of the lease.
    fn block(&self) -> BlockNo
        ensures { result.0 ≡ lease_at self.now.number }
    {
        BlockNo(1 + u64::from(self.number))
    }

    // The lease itself, which is in use once its claim was written.
    fn own_use(&self) -> InUse
        ensures { use_of result ≡ own_use self.now.number self.now.claim }
    {
        InUse {
            lease: self.number,
            until: self.claim.sample + TERM,
        }
    }

    // The lease to be named where a reading has reached it or the other one in use.
    fn reached(&self, reading: u64) -> Option<InUse>
        ensures { reached_lease result ≡ first
            (own_use self.now.number self.now.claim ∷ uses_of self.now.others) reading }
    {
        self.own_use()
            .reached(first_reached(self.others, reading), reading)
    }
}

// The record that a claim writes.
fn own_record(claim: Claim) -> LeaseRecord
    requires { claim.sample < 2 ^ 48 }
    ensures { result ≡ own claim }
{
    LeaseRecord::Claimed {
        claim,
        until: claim.sample + TERM,
    }
}

// Whether a lease is expired for a sample.
fn is_expired(seen: &LeaseRecord, sample: u64) -> bool
    ensures { result ≡ is_expired_for seen.now sample }
{
    match seen {
        LeaseRecord::Free => true,
        LeaseRecord::Claimed { until, .. } => *until < sample && GRACE < sample - *until,
    }
}

// The end after bytes that are no lease, where a reading may have reached a lease in use.
fn damaged_at<K>(due: Option<InUse>, reading: u64) -> ClaimEnd<K>
    ensures { Ends (claim_end_of result) ≡ unless_reached (reached_lease due)
        (λ due. Ends (ClaimLost due reading)) (Ends ClaimDamaged) }
{
    match due {
        Some(due) => ClaimEnd::Lost { due, reading },
        None => ClaimEnd::Damaged,
    }
}
