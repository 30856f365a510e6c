//! A renewal as a machine of five calls.
ghost use Rattle.std.specs.Prelude.{◌≡◌, ◌≤◌, ◌<◌, ◌+◌, ◌^◌, ℕ, Some, None, []};
ghost use Rattle.plx_rules.specs.Process.{bytes_out};
ghost use Rattle.plx_lease.specs.Renewing.{renewal_rest};

use crate::in_use::InUse;
use crate::renewal::{LeaseRenewal, RenewalEnd};
use plx_base::{Block, BlockNo};
use plx_disk::{Answer, Ask, Turn};
use plx_token::{Held, LeaseKind};

/// How a renewal ends that keeps its lease.
#[derive(Drop)]
pub enum RenewingEnd<K> {
    /// The lease is held up to a later moment.
    Held(Held<K>),
    /// The write was missed.
    Lost { due: InUse, reading: u64 },
    /// The write failed.
    WriteFault,
}

/// The renewal of a lease, which asks until it has ended.
#[derive(Drop)]
pub struct Renewing<K> {
    work: LeaseRenewal,
    held: Held<K>,
    end: Option<RenewalEnd>,
    out: Block,
    ghost spelled: { out ≡ bytes_out (renewal_rest work) },
    ghost after: { held.until ≤ work.later },
    ghost high: { work.later < 2 ^ 49 },
}

impl<K: LeaseKind> Renewing<K> {
    ghost use Rattle.plx_disk.specs.declared.turn.Turn.{Turn};
    ghost use Rattle.plx_geom.specs.Geometry.{lease_at};
    ghost use Rattle.plx_rules.specs.Process.{Ends, answered, standing};
    ghost use Rattle.plx_rules.specs.Machines.{turn_of};
    ghost use Rattle.law_run.specs.Machines.{HasCome, MovesOn};
    ghost use Rattle.law_run.specs.Renewals.{IsRenewalAsk, IsRenewalEnd, renewal_process, renewal_until};
    ghost use Rattle.plx_lease.specs.Shells.{IsRenewed, renewing_end, renewing_rest};

    /// The renewal of a lease that is held, in this block, by the command's first reading, with a
    /// block for what it writes.
    pub fn begin(held: Held<K>, block: BlockNo, reading: u64, out: Block) -> Renewing<K>
        requires low { 1 ≤ block.0 }
        requires high { block.0 ≤ 2 ^ 32 }
        requires reading { reading < 2 ^ 48 }
        ensures rest { (place : ℕ) → block.0 ≡ lease_at place → renewing_rest result
            ≡ renewal_process place held.claim held.until (renewal_until held.until reading) }
        ensures log { (place : ℕ) → block.0 ≡ lease_at place → HasCome
            (renewal_process place held.claim held.until (renewal_until held.until reading))
            [] (renewing_rest result) }
        ensures held { result.held ≡ held }
        ensures later { result.work.later ≡ renewal_until held.until reading }
    {
        let work = LeaseRenewal::begin(&held, block, reading);
        let mut out = out;
        work.spell(&mut out);
        Renewing {
            work,
            held,
            end: None,
            out,
        }
    }

    /// To the first ask.
    pub fn turn(&mut self) -> Turn
        ensures kept { self.new ≡ self.old }
        ensures turn { result ≡ turn_of (renewing_rest self.new) }
    {
        self.stands()
    }

    /// The ask that stands.
    pub fn ask(&self) -> Ask
        requires { turn_of (renewing_rest self.now) ≡ Turn.Again }
        ensures ask { Some result ≡ standing (renewing_rest self.now) }
        ensures rules { IsRenewalAsk (renewing_rest self.now) result }
    {
        self.work.ask()
    }

    /// The 4,096 bytes of the write that is asked for.
    pub fn out(&self) -> &[u8]
        requires { turn_of (renewing_rest self.now) ≡ Turn.Again }
        ensures { result.now ≡ bytes_out (renewing_rest self.now) }
    {
        self.out.as_slice()
    }

    /// The ask is answered.
    pub fn answer(&mut self, answer: &Answer) -> Turn
        requires { turn_of (renewing_rest self.old) ≡ Turn.Again }
        ensures rest { renewing_rest self.new ≡ answered (renewing_rest self.old) answer.now }
        ensures log { MovesOn (renewing_rest self.old) answer.now (renewing_rest self.new) }
        ensures turn { result ≡ turn_of (renewing_rest self.new) }
        ensures held { self.new.held ≡ self.old.held }
        ensures later { self.new.work.later ≡ self.old.work.later }
    {
        self.end = self.work.answer(answer);
        self.stands()
    }

    /// Its end, once it has ended.
    pub fn end(self) -> RenewingEnd<K>
        requires { turn_of (renewing_rest self) ≡ Turn.Ended }
        ensures end { renewing_rest self ≡ Ends (renewing_end result) }
        ensures rules { IsRenewalEnd (renewing_rest self) (renewing_end result) }
        ensures held { IsRenewed self result }
    {
        match self.end {
            Some(RenewalEnd::Renewed) => RenewingEnd::Held(self.held.renewed(self.work.later())),
            Some(RenewalEnd::Lost { due, reading }) => RenewingEnd::Lost { due, reading },
            Some(RenewalEnd::WriteFault) => RenewingEnd::WriteFault,
            None => unreachable!(),
        }
    }

    // Whether an ask stands.
    fn stands(&self) -> Turn
        ensures { result ≡ turn_of (renewing_rest self.now) }
    {
        match &self.end {
            None => Turn::Again,
            Some(_) => Turn::Ended,
        }
    }
}
