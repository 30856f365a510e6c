//! A release as a machine of five calls.
ghost use Rattle.std.specs.Prelude.{◌≡◌, ◌≤◌, ◌^◌, ℕ, Some, None, []};

use crate::release::{LeaseRelease, ReleaseEnd};
use plx_base::{Block, BlockNo};
use plx_disk::{Answer, Ask, Turn};
use plx_token::{Held, LeaseKind};
use std::marker::PhantomData;

/// The release of a lease, which asks until it has ended.
#[derive(Drop)]
pub struct Releasing<K> {
    work: LeaseRelease,
    end: Option<ReleaseEnd>,
    kind: PhantomData<K>,
}

impl<K: LeaseKind> Releasing<K> {
    ghost use Rattle.plx_disk.specs.declared.turn.Turn.{Turn};
    ghost use Rattle.plx_geom.specs.Geometry.{lease_at};
    ghost use Rattle.plx_rules.specs.Process.{Ends, answered, standing, bytes_out};
    ghost use Rattle.plx_rules.specs.Machines.{turn_of};
    ghost use Rattle.law_run.specs.Machines.{HasCome, MovesOn};
    ghost use Rattle.law_run.specs.Releases.{IsReleaseAsk, IsReleaseEnd, release_process};
    ghost use Rattle.plx_lease.specs.Releasing.{release_end};
    ghost use Rattle.plx_lease.specs.Shells.{releasing_rest};

    /// The release of a lease that is held, in this block, with a block for what it writes: from here
    /// on it isn't held.
    pub fn begin(held: Held<K>, block: BlockNo, out: Block) -> Releasing<K>
        requires low { 1 ≤ block.0 }
        requires high { block.0 ≤ 2 ^ 32 }
        ensures rest { (place : ℕ) → block.0 ≡ lease_at place
            → releasing_rest result ≡ release_process place held.until }
        ensures log { (place : ℕ) → block.0 ≡ lease_at place
            → HasCome (release_process place held.until) [] (releasing_rest result) }
    {
        Releasing {
            work: LeaseRelease::begin(held, block, out),
            end: None,
            kind: PhantomData,
        }
    }

    /// To the first ask.
    pub fn turn(&mut self) -> Turn
        ensures kept { self.new ≡ self.old }
        ensures turn { result ≡ turn_of (releasing_rest self.new) }
    {
        self.stands()
    }

    /// The ask that stands.
    pub fn ask(&self) -> Ask
        requires { turn_of (releasing_rest self.now) ≡ Turn.Again }
        ensures ask { Some result ≡ standing (releasing_rest self.now) }
        ensures rules { IsReleaseAsk (releasing_rest self.now) result }
    {
        self.work.ask()
    }

    /// The 4,096 bytes of the write that is asked for.
    pub fn out(&self) -> &[u8]
        requires { turn_of (releasing_rest self.now) ≡ Turn.Again }
        ensures { result.now ≡ bytes_out (releasing_rest self.now) }
    {
        self.work.out()
    }

    /// The ask is answered.
    pub fn answer(&mut self, answer: &Answer) -> Turn
        requires { turn_of (releasing_rest self.old) ≡ Turn.Again }
        ensures rest { releasing_rest self.new ≡ answered (releasing_rest self.old) answer.now }
        ensures log { MovesOn (releasing_rest self.old) answer.now (releasing_rest self.new) }
        ensures turn { result ≡ turn_of (releasing_rest self.new) }
    {
        self.end = self.work.answer(answer);
        self.stands()
    }

    /// Its end, once it has ended.
    pub fn end(self) -> ReleaseEnd
        requires { turn_of (releasing_rest self) ≡ Turn.Ended }
        ensures end { releasing_rest self ≡ Ends (release_end result) }
        ensures rules { IsReleaseEnd (releasing_rest self) (release_end result) }
    {
        match self.end {
            Some(end) => end,
            None => unreachable!(),
        }
    }

    // Whether an ask stands.
    fn stands(&self) -> Turn
        ensures { result ≡ turn_of (releasing_rest self.now) }
    {
        match &self.end {
            None => Turn::Again,
            Some(_) => Turn::Ended,
        }
    }
}
