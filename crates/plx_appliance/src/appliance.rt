//! One boot of an appliance.
ghost use Rattle.std.specs.Prelude.{◌≡◌, ◌<◌, ◌^◌};
ghost use Rattle.plx_geom.specs.Geometry.{lease_count};
ghost use Rattle.plx_appliance.specs.Ties.{suits-prop};
ghost use Rattle.plx_appliance.specs.Ties.{stage_leases, stage_setting, stage_slots, stage_suits};

use crate::begun::Begun;
use crate::entering::enter;
use crate::fitting::fits;
use crate::holdings::Holdings;
use crate::work::Work;
use plx_base::{BlockNo, NoMemory, SlotNo};
use plx_commands::{Command, Reply};
use plx_disk::{Answer, Ask};
use plx_session::Setting;
use std::alloc::Global;
use std::mem;

/// Where an appliance stands: in no command, at the first reading of one that has begun, or after it.
#[derive(Drop)]
pub enum Stage {
    Idle,
    Begun(Begun),
    In(Work),
}

impl Stage {
    // The next stage stands, and the one that stood is dropped.
    fn set(&mut self, next: Stage)
        ensures { self.new ≡ next }
    {
        *self = next;
    }
}

/// One boot of an appliance: what it keeps between commands, and the command that runs.
#[derive(Drop)]
pub struct Appliance {
    holdings: Holdings,
    stage: Stage,
    ghost same: { stage_setting holdings.setting stage ≡ holdings.setting },
    ghost room: { stage_slots holdings.setting.geometry.slots stage
        ≡ holdings.setting.geometry.slots },
    ghost suits: { stage_suits holdings.space stage } by { suits-prop holdings.space stage },
    ghost renewals: { stage_leases (lease_count holdings.setting.geometry) stage
        ≡ lease_count holdings.setting.geometry },
}

impl Appliance {
    ghost use Rattle.std.specs.Prelude.{ℕ, List, [], ◌∷◌, Some, None, true, false, IsTrue, IfOk, MatchOption, OnOk, OnErr};
    ghost use Rattle.plx_disk.specs.declared.ask.Ask.{Ask};
    ghost use Rattle.plx_rules.specs.Boot.{Began, Asked, Fits, BootEntry, asks, configuration, replies, writes_out};
    ghost use Rattle.plx_rules.specs.Commands.{IsBuilt, IsWellFormed};
    ghost use Rattle.plx_rules.specs.Machines.{AreWhole, IsTimely};
    ghost use Rattle.plx_appliance.specs.Appliance.{IsIdle, IsRunning, IsStanding, StandsFor, has_begun, shows_session, appliance_setting};
    ghost use Rattle.plx_appliance.specs.declared.work.Work.{Work as Running};
    ghost use Rattle.plx_alloc.specs.Asking.{IsOnDevice};
    ghost use Rattle.plx_alloc.specs.Tables.{numbers};
    ghost use Rattle.plx_appliance.specs.declared.begun.Begun.{Begun as Started};

    /// An appliance that was asked nothing yet.
    pub fn fresh(alloc: Global, setting: Setting) -> Result<Appliance, NoMemory>
        ensures log { IfOk result (λ a. StandsFor a []) }
        ensures setting { IfOk result (λ a. a.holdings.setting ≡ setting) }
        ensures idle { IfOk result IsIdle }
    {
        let holdings = Holdings::new(alloc, setting)?;
        Ok(Appliance {
            holdings,
            stage: Stage::Idle,
        })
    }

    /// Whether no command runs.
    pub fn is_idle(&self) -> bool
        ensures idle { IsTrue result → IsIdle self.now }
        ensures running { result ≡ false → IsRunning self.now }
    {
        match &self.stage {
            Stage::Idle => true,
            Stage::Begun(_) | Stage::In(_) => false,
        }
    }

    /// Whether the image in this slot has a session. An attach begins it with its reply, and a detach
    /// ends it so.
    pub fn is_attached(&self, slot: SlotNo) -> bool
        ensures { (log : List BootEntry) → StandsFor self.now log →
            result ≡ shows_session self.now log slot.0 }
    {
        self.holdings.sessions.get(slot).is_some()
    }

    /// The blocks in hand, in the order in which they were taken.
    pub fn hand(&self) -> &[BlockNo]
        ensures { (log : List BootEntry) → StandsFor self.now log →
            numbers result.now ≡ (configuration (appliance_setting self.now) log).hand }
    {
        self.holdings.space.hand()
    }

    /// Any command that is built begins, with all the memory that it can need. Without memory nothing changes.
    pub fn begin(&mut self, alloc: Global, command: Command) -> Result<(), NoMemory>
        requires idle { IsIdle self.old }
        requires built { IsBuilt command }
        requires limits { IsWellFormed command }
        ensures ok { OnOk result ((log : List BootEntry) → StandsFor self.old log →
            StandsFor self.new (Began command ∷ log)) }
        ensures running { OnOk result (IsRunning self.new) }
        ensures err { OnErr result ((log : List BootEntry) → StandsFor self.old log →
            StandsFor self.new log) }
        ensures idle { OnErr result (IsIdle self.new) }
        ensures setting { self.new.holdings.setting ≡ self.old.holdings.setting }
    {
        let begun = Begun::begin(alloc, &self.holdings.setting, command)?;
        self.stage.set(Stage::Begun(begun));
        Ok(())
    }

    /// The ask that stands.
    pub fn ask(&self) -> Ask
        requires { IsRunning self.now }
        ensures ask { (log : List BootEntry) → StandsFor self.now log →
            Some result ≡ asks (configuration (appliance_setting self.now) log).place }
        ensures within { (log : List BootEntry) → StandsFor self.now log →
            IsOnDevice self.now.holdings.setting.geometry result }
    {
        match &self.stage {
            Stage::Idle => Ask::Clock,
            Stage::Begun(_) => Ask::Clock,
            Stage::In(work) => work.ask(),
        }
    }

    /// The bytes of the write that is asked for.
    pub fn out(&self) -> &[u8]
        requires { IsRunning self.now }
        ensures bytes { (log : List BootEntry) → StandsFor self.now log →
            result.now ≡ writes_out (configuration (appliance_setting self.now) log).place }
        ensures whole { (log : List BootEntry) → StandsFor self.now log →
            AreWhole (asks (configuration (appliance_setting self.now) log).place) result.now }
    {
        match &self.stage {
            Stage::Idle => &[],
            Stage::Begun(_) => &[],
            Stage::In(work) => work.out(),
        }
    }

    /// The ask that stands is answered: the reply, where the command ends with it. An answer that doesn't fit the ask
    /// changes nothing.
    pub fn answer(&mut self, answer: &Answer) -> Option<Reply>
        requires { IsRunning self.old }
        ensures stage { MatchOption result (IsRunning self.new) (λ reply. IsIdle self.new) }
        ensures log { (log : List BootEntry) (ask : Ask) (bytes : List ℕ) → StandsFor self.old log →
            IsStanding self.old log ask bytes → Fits ask answer.now →
            StandsFor self.new (Asked ask bytes answer.now ∷ log) }
        ensures reply { (log : List BootEntry) (ask : Ask) (bytes : List ℕ) →
            StandsFor self.old log → IsStanding self.old log ask bytes → Fits ask answer.now →
            result ≡ replies (appliance_setting self.old) answer.now
            (configuration (appliance_setting self.old) log) }
        ensures unfit { (log : List BootEntry) (ask : Ask) (bytes : List ℕ) →
            StandsFor self.old log → IsStanding self.old log ask bytes → ¬ (Fits ask answer.now) →
            (self.new ≡ self.old) × (result ≡ None) }
        ensures setting { self.new.holdings.setting ≡ self.old.holdings.setting }
    {
        let ask = self.ask();
        if !fits(&ask, answer) {
            return None;
        }
        match (self.has_begun(), answer) {
            (true, Answer::Reading(reading)) => self.first(*reading),
            (true, _) => None,
            (false, _) => self.next(answer),
        }
    }

    // Whether the command that runs waits for its first reading.
    fn has_begun(&self) -> bool
        ensures { result ≡ has_begun self.now.stage }
    {
        match &self.stage {
            Stage::Begun(_) => true,
            Stage::Idle | Stage::In(_) => false,
        }
    }

    // The command that has begun has its first reading.
    fn first(&mut self, reading: u64) -> Option<Reply>
        requires { reading < 2 ^ 48 }
        ensures stage { IsRunning self.old → MatchOption result (IsRunning self.new)
            (λ reply. IsIdle self.new) }
        ensures log { (log : List BootEntry) (begun : Started) →
            self.old.stage ≡ Stage.Begun begun → StandsFor self.old log →
            StandsFor self.new (Asked Ask.Clock [] (Answer.Reading reading) ∷ log) }
        ensures reply { (log : List BootEntry) (begun : Started) →
            self.old.stage ≡ Stage.Begun begun → StandsFor self.old log →
            result ≡ replies (appliance_setting self.old) (Answer.Reading reading)
            (configuration (appliance_setting self.old) log) }
        ensures setting { self.new.holdings.setting ≡ self.old.holdings.setting }
    {
        match mem::replace(&mut self.stage, Stage::Idle) {
            Stage::Begun(begun) => {
                self.holdings.drop_expired(reading);
                match enter(begun, &mut self.holdings, reading) {
                    Ok(work) => {
                        self.stage.set(Stage::In(work));
                        None
                    }
                    Err(reply) => {
                        self.holdings.settle(&reply);
                        Some(reply)
                    }
                }
            }
            other => {
                self.stage.set(other);
                None
            }
        }
    }

    // The command that runs is answered.
    fn next(&mut self, answer: &Answer) -> Option<Reply>
        requires { IsTimely answer.now }
        ensures stage { IsRunning self.old → MatchOption result (IsRunning self.new)
            (λ reply. IsIdle self.new) }
        ensures log { (log : List BootEntry) (ask : Ask) (bytes : List ℕ) (work : Running) →
            self.old.stage ≡ Stage.In work → StandsFor self.old log →
            IsStanding self.old log ask bytes → Fits ask answer.now →
            StandsFor self.new (Asked ask bytes answer.now ∷ log) }
        ensures reply { (log : List BootEntry) (ask : Ask) (bytes : List ℕ) (work : Running) →
            self.old.stage ≡ Stage.In work → StandsFor self.old log →
            IsStanding self.old log ask bytes → Fits ask answer.now →
            result ≡ replies (appliance_setting self.old) answer.now
            (configuration (appliance_setting self.old) log) }
        ensures setting { self.new.holdings.setting ≡ self.old.holdings.setting }
    {
        let Stage::In(work) = &mut self.stage else {
            return None;
        };
        let ask = work.ask();
        let reply = work.answer(&mut self.holdings, answer);
        self.holdings.drop_failed(&ask, answer);
        match reply {
            None => None,
            Some(reply) => {
                self.stage.set(Stage::Idle);
                self.holdings.settle(&reply);
                Some(reply)
            }
        }
    }
}
