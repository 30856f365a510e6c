//! A claim as a machine of five calls.
ghost use Rattle.std.specs.Prelude.{◌≡◌, ◌≤◌, ◌<◌, ◌^◌, ℕ, Some, None, []};

use crate::claim::LeaseClaim;
use crate::claim_end::ClaimEnd;
use plx_base::{Block, BlockNo, Boot};
use plx_disk::{Answer, Ask, Turn};
use plx_token::LeaseKind;

/// A claim of a lease, which asks until it has ended.
#[derive(Drop)]
pub struct Claiming<K> {
    work: LeaseClaim<K>,
    end: Option<ClaimEnd<K>>,
}

impl<K: LeaseKind> Claiming<K> {
    ghost use Rattle.plx_disk.specs.declared.turn.Turn.{Turn};
    ghost use Rattle.plx_geom.specs.Geometry.{lease_at};
    ghost use Rattle.plx_rules.specs.Process.{Ends, answered, standing, bytes_out};
    ghost use Rattle.plx_rules.specs.Claims.{claim_process};
    ghost use Rattle.plx_rules.specs.Machines.{IsTimely, turn_of};
    ghost use Rattle.law_run.specs.ClaimEnds.{IsClaimAsk, IsClaimEnd};
    ghost use Rattle.law_run.specs.Machines.{HasCome, MovesOn};
    ghost use Rattle.plx_lease.specs.ClaimEnds.{claim_end};
    ghost use Rattle.plx_lease.specs.Claiming.{KeepsLease};
    ghost use Rattle.plx_lease.specs.Shells.{claiming_rest};

    /// The claim of a lease in this block by a boot that began so many claims before, with a block for
    /// what it writes.
    pub fn begin(lease: K, block: BlockNo, boot: Boot, number: u64, out: Block) -> Claiming<K>
        requires low { 1 ≤ block.0 }
        requires high { block.0 ≤ 2 ^ 32 }
        requires number { number < 2 ^ 40 }
        ensures rest { (place : ℕ) → block.0 ≡ lease_at place
            → claiming_rest result ≡ claim_process boot.0 [] place number }
        ensures log { (place : ℕ) → block.0 ≡ lease_at place
            → HasCome (claim_process boot.0 [] place number) [] (claiming_rest result) }
        ensures lease { result.work.lease ≡ lease }
    {
        Claiming {
            work: LeaseClaim::begin(lease, block, boot, number, None, out),
            end: None,
        }
    }

    /// To the first ask.
    pub fn turn(&mut self) -> Turn
        ensures kept { self.new ≡ self.old }
        ensures turn { result ≡ turn_of (claiming_rest self.new) }
    {
        self.stands()
    }

    /// The ask that stands.
    pub fn ask(&self) -> Ask
        requires { turn_of (claiming_rest self.now) ≡ Turn.Again }
        ensures ask { Some result ≡ standing (claiming_rest self.now) }
        ensures rules { IsClaimAsk (claiming_rest self.now) result }
    {
        self.work.ask()
    }

    /// The 4,096 bytes of the write that is asked for, else none.
    pub fn out(&self) -> &[u8]
        requires { turn_of (claiming_rest self.now) ≡ Turn.Again }
        ensures { result.now ≡ bytes_out (claiming_rest self.now) }
    {
        self.work.out()
    }

    /// The ask is answered.
    pub fn answer(&mut self, answer: &Answer) -> Turn
        requires asks { turn_of (claiming_rest self.old) ≡ Turn.Again }
        requires timely { IsTimely answer.now }
        ensures rest { claiming_rest self.new ≡ answered (claiming_rest self.old) answer.now }
        ensures log { MovesOn (claiming_rest self.old) answer.now (claiming_rest self.new) }
        ensures turn { result ≡ turn_of (claiming_rest self.new) }
        ensures kept { KeepsLease self.old.work self.new.work self.new.end }
    {
        self.end = self.work.answer(answer);
        self.stands()
    }

    /// Its end, once it has ended.
    pub fn end(self) -> ClaimEnd<K>
        requires { turn_of (claiming_rest self) ≡ Turn.Ended }
        ensures end { claiming_rest self ≡ Ends (claim_end result) }
        ensures rules { IsClaimEnd (claiming_rest self) (claim_end result) }
        ensures kept { self.end ≡ Some result }
    {
        let Claiming { work: _work, end } = self;
        match end {
            Some(end) => end,
            None => unreachable!(),
        }
    }

    // Whether an ask stands.
    fn stands(&self) -> Turn
        ensures { result ≡ turn_of (claiming_rest self.now) }
    {
        let _ask = self.work.ask();
        match &self.end {
            None => Turn::Again,
            Some(_) => Turn::Ended,
        }
    }
}
