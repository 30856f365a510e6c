//! A run makes plain events until it comes to its end.
ghost use Rattle.std.specs.Prelude.{◌≡◌};
ghost use Rattle.plx_rules.specs.Sequences.{is_in_region};

use crate::world::World;
use plx_base::{ApplianceNo, BlockNo, NoMemory, WriteKind};
use plx_commands::{Region, Stop};
use plx_disk::{Answer, Ask};
use plx_geom::{Geometry, Place};

impl World {
    ghost use Rattle.std.specs.Prelude.{◌≡◌, Some, None, IfOk, OnOk, OnErr};
    ghost use Rattle.plx_commands.specs.declared.event.Stop.TheVariants as stop_is;
    ghost use Rattle.plx_rules.specs.World as rules;
    ghost use Rattle.plx_world.specs.Running.{AsksClock, RunGoesOn, IsWriting, MakesRun, RunsSome, RunsWhole, StopsAs};
    ghost use Rattle.plx_world.specs.Standing.{WorldStands, StandsOn};

    // A run, until the appliance's reply or until it stops. False, and nothing changes, where it makes no event.
    pub(crate) fn run(
        &mut self,
        appliance: ApplianceNo,
        stop: Option<Stop>,
        buffer: &mut Answer,
    ) -> Result<bool, NoMemory>
        ensures ok { IfOk result (MakesRun appliance stop self.old self.new) }
        ensures err { OnErr result (RunsSome appliance stop self.old self.new) }
    {
        if !self.advance(appliance, stop, buffer)? {
            return Ok(false);
        }
        self.finish(appliance, stop, buffer)?;
        Ok(true)
    }

    // The rest of a run.
    fn finish(
        &mut self,
        appliance: ApplianceNo,
        stop: Option<Stop>,
        buffer: &mut Answer,
    ) -> Result<(), NoMemory>
        ensures ok { OnOk result (RunsWhole appliance stop self.old self.new) }
        ensures err { OnErr result (RunsSome appliance stop self.old self.new) }
    {
        // A command's bound on its asks bounds its run, far below this count.
        let _blocks = self.geometry.blocks();
        for _ in 0..u64::MAX {
            if !self.advance(appliance, stop, buffer)? {
                return Ok(());
            }
        }
        Ok(())
    }

    // The next plain event of a run, unless it stops there, and some that follow.
    fn advance(
        &mut self,
        appliance: ApplianceNo,
        stop: Option<Stop>,
        buffer: &mut Answer,
    ) -> Result<bool, NoMemory>
        ensures ok { IfOk result (RunGoesOn appliance stop self.old self.new) }
        ensures err { OnErr result (StandsOn self.old self.new) }
    {
        if self.stops(appliance, stop) {
            return Ok(false);
        }
        self.go_on(appliance, buffer)
    }

    // The next plain event of a run that doesn't stop, and some that follow.
    fn go_on(&mut self, appliance: ApplianceNo, buffer: &mut Answer) -> Result<bool, NoMemory>
        ensures ok { IfOk result (RunGoesOn appliance None self.old self.new) }
        ensures err { OnErr result (StandsOn self.old self.new) }
    {
        match self.asked(appliance) {
            Some(Ask::Read { block }) => {
                self.answer_read(appliance, block, buffer)?;
                Ok(true)
            }
            Some(Ask::Write { guard, .. }) => self.write_on(appliance, guard),
            Some(Ask::Clock) => self.read_clock(appliance),
            Some(Ask::Until { .. }) => self.read_clock(appliance),
            None => Ok(false),
        }
    }

    // The clock answers with the time, unless a later one is waited for.
    fn read_clock(&mut self, appliance: ApplianceNo) -> Result<bool, NoMemory>
        requires { AsksClock self.old appliance.0 }
        ensures ok { IfOk result (RunGoesOn appliance None self.old self.new) }
        ensures err { OnErr result (StandsOn self.old self.new) }
    {
        let time = self.disk.time();
        self.reading(appliance, time)
    }

    // The next plain event of a write: it is issued or missed, its least missing sector lands or fails, or it is answered.
    // Where none of its sectors has landed, all of them land.
    fn write_on(&mut self, appliance: ApplianceNo, guard: u64) -> Result<bool, NoMemory>
        requires { IsWriting self.old appliance.0 guard }
        ensures ok { IfOk result (RunGoesOn appliance None self.old self.new) }
        ensures err { OnErr result (StandsOn self.old self.new) }
    {
        let Some(number) = self.pending(appliance) else {
            return self.issue_or_miss(appliance, guard);
        };
        if self.disk.land_whole(number) {
            return Ok(true);
        }
        let Some(sector) = self.disk.missing(number) else {
            return self.done(appliance);
        };
        if self.disk.land(number, sector) {
            return Ok(true);
        }
        self.fault(appliance)
    }

    // A write that isn't issued yet is issued, or missed where the time is past its guard.
    fn issue_or_miss(&mut self, appliance: ApplianceNo, guard: u64) -> Result<bool, NoMemory>
        requires writing { IsWriting self.old appliance.0 guard }
        requires unissued { (w : rules.World) → WorldStands self.old w
            → (w.seats appliance.0).pending ≡ None }
        ensures ok { IfOk result (RunGoesOn appliance None self.old self.new) }
        ensures err { OnErr result (StandsOn self.old self.new) }
    {
        let time = self.disk.time();
        if time <= guard {
            return self.issue(appliance);
        }
        self.miss(appliance, time)
    }

    // Whether a run stops before the ask that stands is answered.
    fn stops(&self, appliance: ApplianceNo, stop: Option<Stop>) -> bool
        ensures { StopsAs self.now appliance.0 stop result }
    {
        match stop {
            Some(Stop::Write(kind)) => self.stops_at_write(appliance, kind),
            Some(Stop::Read(region)) => self.stops_at_read(appliance, region),
            None => false,
        }
    }

    // Whether it stops at the ask, by a write of that kind.
    fn stops_at_write(&self, appliance: ApplianceNo, kind: WriteKind) -> bool
        ensures { StopsAs self.now appliance.0 (Some (stop_is.Write kind)) result }
    {
        match self.asked(appliance) {
            Some(Ask::Write { kind: asked, .. }) => {
                kind == asked && self.pending(appliance).is_none()
            }
            Some(Ask::Read { .. }) => false,
            Some(Ask::Clock) => false,
            Some(Ask::Until { .. }) => false,
            None => false,
        }
    }

    // Whether it stops at the ask, by a read in that region.
    fn stops_at_read(&self, appliance: ApplianceNo, region: Region) -> bool
        ensures { StopsAs self.now appliance.0 (Some (stop_is.Read region)) result }
    {
        match self.asked(appliance) {
            Some(Ask::Read { block }) => is_in(&self.geometry, region, block),
            Some(Ask::Write { .. }) => false,
            Some(Ask::Clock) => false,
            Some(Ask::Until { .. }) => false,
            None => false,
        }
    }
}

// Whether a block lies in a region.
fn is_in(geometry: &Geometry, region: Region, block: BlockNo) -> bool
    ensures { result ≡ is_in_region geometry.now region block.0 }
{
    let _blocks = geometry.blocks();
    match geometry.place(block) {
        Some(Place::RootLease | Place::ImageLease(_) | Place::ExtentLease(_)) => {
            region == Region::Lease
        }
        Some(Place::Record(_)) => region == Region::Record,
        Some(Place::Log(_)) => region == Region::Log,
        Some(Place::JDesc(_, _)) => region == Region::Journal,
        Some(Place::JData(_, _)) => region == Region::Journal,
        Some(Place::Map(_)) => region == Region::Map,
        Some(Place::Pool(_, _)) => region == Region::Pool,
        Some(Place::Super) => false,
        None => false,
    }
}
