//! The ask that stands is answered.
ghost use Rattle.std.specs.Prelude.{◌≡◌, ◌<◌, ◌^◌, ◌++◌, ◌∷◌, [], OnErr, OnOk, IsTrue, ◌↔◌};
ghost use Rattle.std.specs.Vec.{vec_capacity, vec_len};
ghost use Rattle.plx_disk.specs.Standing.{Stays, device_size};
ghost use Rattle.plx_disk.specs.declared.disk.Disk.{Disk};
ghost use Rattle.plx_rules.specs.World.{IsReadingAt};
ghost use Rattle.plx_world.specs.Answering.{LendsBlock, told_entries};

use crate::world::World;
use plx_base::{ApplianceNo, Block, BlockNo, NoMemory};
use plx_commands::{Entry, Reply};
use plx_disk::{Answer, Ask, Disk};
use std::alloc::Global;

/// How far a clock may be from the time, in milliseconds.
const DRIFT: u64 = 50;

impl World {
    ghost use Rattle.std.specs.Prelude.{IfOk};
    ghost use Rattle.plx_commands.specs.declared.event.Event.TheVariants as event;
    ghost use Rattle.plx_geom.specs.Geometry.{block_count};
    ghost use Rattle.plx_world.specs.Answering.{AnswersRead, IsAnswered, RunsCommand};
    ghost use Rattle.plx_world.specs.Standing.{StandsOn, Steps};

    // The ask that stands is answered, and the reply told to which that leads.
    fn answer(&mut self, appliance: ApplianceNo, answer: &Answer) -> Result<(), NoMemory>
        requires { RunsCommand self.old appliance.0 }
        ensures ok { OnOk result (IsAnswered self.old self.new appliance answer.now) }
        ensures err { OnErr result (StandsOn self.old self.new) }
        ensures disk { self.new.disk ≡ self.old.disk }
    {
        self.trace.reserve(1)?;
        let index = appliance.0 as usize;
        let reply = self.seats[index].answer(answer);
        tell(&mut self.trace, appliance, reply);
        Ok(())
    }

    // The read that is asked for is answered.
    pub(crate) fn read(
        &mut self,
        appliance: ApplianceNo,
        buffer: &mut Answer,
    ) -> Result<bool, NoMemory>
        ensures ok { IfOk result (Steps self.old self.new (event.Read appliance)) }
        ensures err { OnErr result (StandsOn self.old self.new) }
    {
        match self.asked(appliance) {
            Some(Ask::Read { block }) => {
                self.answer_read(appliance, block, buffer)?;
                Ok(true)
            }
            Some(Ask::Write { .. }) => Ok(false),
            Some(Ask::Clock) => Ok(false),
            Some(Ask::Until { .. }) => Ok(false),
            None => Ok(false),
        }
    }

    // The read of a block is answered with the device's own block, which lies in the buffer meanwhile.
    pub(crate) fn answer_read(
        &mut self,
        appliance: ApplianceNo,
        block: BlockNo,
        buffer: &mut Answer,
    ) -> Result<(), NoMemory>
        requires runs { RunsCommand self.old appliance.0 }
        requires within { block.0 < block_count self.old.geometry }
        ensures ok { OnOk result (AnswersRead self.old self.new appliance block.0) }
        ensures err { OnErr result (StandsOn self.old self.new) }
    {
        lend(self.alloc, &mut self.disk, block, buffer)?;
        let told = self.answer(appliance, buffer);
        take_back(&mut self.disk, block, buffer);
        told?;
        Ok(())
    }

    // The read or the write that is asked for is answered: it failed.
    pub(crate) fn fault(&mut self, appliance: ApplianceNo) -> Result<bool, NoMemory>
        ensures ok { IfOk result (Steps self.old self.new (event.Fault appliance)) }
        ensures err { OnErr result (StandsOn self.old self.new) }
    {
        match self.asked(appliance) {
            Some(Ask::Read { .. }) => {
                self.answer(appliance, &Answer::Fault)?;
                Ok(true)
            }
            Some(Ask::Write { .. }) => {
                self.answer(appliance, &Answer::Fault)?;
                Ok(true)
            }
            Some(Ask::Clock) => Ok(false),
            Some(Ask::Until { .. }) => Ok(false),
            None => Ok(false),
        }
    }

    // The write that is asked for is answered, if all of it has landed.
    pub(crate) fn done(&mut self, appliance: ApplianceNo) -> Result<bool, NoMemory>
        ensures ok { IfOk result (Steps self.old self.new (event.Done appliance)) }
        ensures err { OnErr result (StandsOn self.old self.new) }
    {
        let Some(number) = self.pending(appliance) else {
            return Ok(false);
        };
        match self.asked(appliance) {
            Some(Ask::Write { .. }) => {
                if !self.disk.settle(number) {
                    return Ok(false);
                }
                self.answer(appliance, &Answer::Done)?;
                Ok(true)
            }
            Some(Ask::Read { .. }) => Ok(false),
            Some(Ask::Clock) => Ok(false),
            Some(Ask::Until { .. }) => Ok(false),
            None => Ok(false),
        }
    }

    // The write that is asked for is answered without being issued: at this reading its guard is past.
    pub(crate) fn miss(&mut self, appliance: ApplianceNo, reading: u64) -> Result<bool, NoMemory>
        ensures ok { IfOk result (Steps self.old self.new (event.Miss appliance reading)) }
        ensures err { OnErr result (StandsOn self.old self.new) }
    {
        if !is_near(reading, self.disk.time()) {
            return Ok(false);
        }
        if self.pending(appliance).is_some() {
            return Ok(false);
        }
        match self.asked(appliance) {
            Some(Ask::Write { guard, .. }) => {
                if reading <= guard {
                    return Ok(false);
                }
                self.answer(appliance, &Answer::Missed(reading))?;
                Ok(true)
            }
            Some(Ask::Read { .. }) => Ok(false),
            Some(Ask::Clock) => Ok(false),
            Some(Ask::Until { .. }) => Ok(false),
            None => Ok(false),
        }
    }

    // The clock answers.
    pub(crate) fn reading(&mut self, appliance: ApplianceNo, reading: u64) -> Result<bool, NoMemory>
        ensures ok { IfOk result (Steps self.old self.new (event.Reading appliance reading)) }
        ensures err { OnErr result (StandsOn self.old self.new) }
    {
        if !is_near(reading, self.disk.time()) {
            return Ok(false);
        }
        match self.asked(appliance) {
            Some(Ask::Clock) => {
                self.answer(appliance, &Answer::Reading(reading))?;
                Ok(true)
            }
            Some(Ask::Until { from }) => {
                if from > reading {
                    return Ok(false);
                }
                self.answer(appliance, &Answer::Reading(reading))?;
                Ok(true)
            }
            Some(Ask::Read { .. }) => Ok(false),
            Some(Ask::Write { .. }) => Ok(false),
            None => Ok(false),
        }
    }
}

// Whether a clock can show this reading at that time.
fn is_near(reading: u64, time: u64) -> bool
    requires { time < 2 ^ 47 }
    ensures { IsTrue result ↔ IsReadingAt reading time }
{
    reading <= time + DRIFT && time <= reading.saturating_add(DRIFT)
}

// What stands in a block is lent to the buffer. Memory is taken where it isn't the bytes of a block yet.
fn lend(alloc: Global, disk: &mut Disk, block: BlockNo, buffer: &mut Answer) -> Result<(), NoMemory>
    requires { block.0 < device_size disk.old }
    ensures ok { OnOk result (LendsBlock disk.old disk.new block.0 buffer.new) }
    ensures err { OnErr result (disk.new ≡ disk.old) }
    ensures blocks { device_size disk.new ≡ device_size disk.old }
{
    if let Answer::Bytes(bytes) = buffer {
        disk.lend(block, bytes);
        return Ok(());
    }
    let mut bytes = Block::zeros(alloc)?;
    disk.lend(block, &mut bytes);
    *buffer = Answer::Bytes(bytes);
    Ok(())
}

// The block that was lent to the buffer is given back.
fn take_back(disk: &mut Disk, block: BlockNo, buffer: &mut Answer)
    ensures back { (lender : Disk) → LendsBlock lender disk.old block.0 buffer.old
        → Stays lender disk.new }
    ensures blocks { device_size disk.new ≡ device_size disk.old }
{
    if let Answer::Bytes(bytes) = buffer {
        disk.take_back(block, bytes);
    }
}

// The reply, if there is one, becomes the last entry.
fn tell(trace: &mut Vec<Entry>, appliance: ApplianceNo, reply: Option<Reply>)
    requires { vec_len trace.old < vec_capacity trace.old }
    ensures { trace.new.items ≡ trace.old.items ++ told_entries appliance reply }
{
    if let Some(reply) = reply {
        add(trace, Entry::Reply { appliance, reply });
    }
}

// One more entry, for which there is room.
pub(crate) fn add(trace: &mut Vec<Entry>, entry: Entry)
    requires { vec_len trace.old < vec_capacity trace.old }
    ensures { trace.new.items ≡ trace.old.items ++ entry ∷ [] }
{
    match trace.push(entry) {
        Ok(()) => {}
        Err(_) => unreachable!(),
    }
}
