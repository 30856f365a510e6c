//! Writes are issued, and land sector by sector. Time passes.
ghost use Rattle.std.specs.Prelude.{◌≤◌, length, MatchOption};
ghost use Rattle.plx_world.specs.Backs.{IsNth};

use crate::seat::boot_of;
use crate::world::World;
use plx_base::{ApplianceNo, BlockNo, NoMemory, WriteKind};
use plx_disk::Ask;

impl World {
    ghost use Rattle.std.specs.Prelude.{true, IfOk, MatchOption, OnErr, OnOk};
    ghost use Rattle.plx_commands.specs.declared.event.Event.TheVariants as event;
    ghost use Rattle.plx_world.specs.Answering.{AsksWrite};
    ghost use Rattle.plx_world.specs.Backs.{HasNone, IsNumber};
    ghost use Rattle.plx_world.specs.Standing.{StandsOn, Steps};

    // Time passes, in milliseconds.
    pub(crate) fn tick(&mut self, by: u32) -> bool
        ensures { Steps self.old self.new (event.Tick by) result }
    {
        self.disk.tick(by)
    }

    // The write that is asked for is issued, under the number of its boot.
    pub(crate) fn issue(&mut self, appliance: ApplianceNo) -> Result<bool, NoMemory>
        ensures ok { IfOk result (Steps self.old self.new (event.Issue appliance)) }
        ensures err { OnErr result (StandsOn self.old self.new) }
    {
        let index = appliance.0 as usize;
        if index >= self.seats.len() {
            return Ok(false);
        }
        let seat = &self.seats[index];
        if seat.pending.is_some() {
            return Ok(false);
        }
        match seat.asked() {
            Some(Ask::Write { kind, block, guard }) => {
                self.issue_write(appliance, kind, block, guard)?;
                Ok(true)
            }
            Some(Ask::Read { .. }) => Ok(false),
            Some(Ask::Clock) => Ok(false),
            Some(Ask::Until { .. }) => Ok(false),
            None => Ok(false),
        }
    }

    // This write is issued. It is what the appliance asks for.
    fn issue_write(
        &mut self,
        appliance: ApplianceNo,
        kind: WriteKind,
        block: BlockNo,
        guard: u64,
    ) -> Result<(), NoMemory>
        requires { AsksWrite self.old appliance.0 kind block guard }
        ensures ok { OnOk result (Steps self.old self.new (event.Issue appliance) true) }
        ensures err { OnErr result (StandsOn self.old self.new) }
    {
        let index = appliance.0 as usize;
        self.seats[index].make_room()?;
        let seat = &self.seats[index];
        let owner = boot_of(appliance, seat.boots);
        let number = self
            .disk
            .issue(owner, kind, block, seat.appliance.out(), guard)?;
        self.seats[index].wait_for(number);
        Ok(())
    }

    // One sector lands, of the write that an appliance issued with `back` newer ones.
    pub(crate) fn land(&mut self, appliance: ApplianceNo, back: u64, sector: u8) -> bool
        ensures { Steps self.old self.new (event.Land appliance back sector) result }
    {
        match self.number_of(appliance, back) {
            Some(number) => self.disk.land(number, sector),
            None => false,
        }
    }

    // The number of an appliance's write with so many newer ones.
    fn number_of(&self, appliance: ApplianceNo, back: u64) -> Option<u64>
        ensures { MatchOption result (HasNone self.now appliance.0 back)
            (IsNumber self.now appliance.0 back) }
    {
        let index = appliance.0 as usize;
        if index >= self.seats.len() {
            return None;
        }
        nth_newest(self.seats[index].issued.as_slice(), back)
    }
}

// The number with so many after it.
fn nth_newest(numbers: &[u64], back: u64) -> Option<u64>
    ensures { MatchOption result (length numbers.now ≤ back) (IsNth numbers.now back) }
{
    let count = numbers.len();
    let back = back as usize;
    if back >= count {
        return None;
    }
    Some(numbers[count - 1 - back])
}
