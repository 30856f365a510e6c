//! The world and what it tells of itself.
ghost use Rattle.std.specs.Prelude.{◌≡◌, ◌≤◌, length};
ghost use Rattle.plx_disk.specs.Standing.{device_size};
ghost use Rattle.plx_geom.specs.Geometry.{block_count};
ghost use Rattle.plx_world.specs.Cancels.{NeverCancels};
ghost use Rattle.plx_world.specs.Ties.{AreTied};

use crate::seat::Seat;
use law_headline::maps_stay;
use plx_base::{ApplianceNo, NoMemory};
use plx_commands::Entry;
use plx_disk::{Ask, Disk};
use plx_format::{allocated, formatted_disk};
use plx_geom::Geometry;
use std::alloc::Global;

/// Appliances over one device.
#[derive(Drop)]
pub struct World {
    pub(crate) alloc: Global,
    pub(crate) geometry: Geometry,
    pub(crate) disk: Disk,
    /// The appliances, by their numbers.
    pub(crate) seats: Vec<Seat>,
    pub(crate) trace: Vec<Entry>,
    ghost many: { length seats.items ≤ 8 },
    ghost sized: { device_size disk ≡ block_count geometry },
    ghost tied: { AreTied geometry seats.items },
    ghost uncancelled: { NeverCancels disk },
}

/// The time of a new world, in milliseconds.
const FIRST_TIME: u64 = 1_000;

impl World {
    ghost use Rattle.std.specs.Prelude.{◌≡◌, IfOk, IfSome};
    ghost use Rattle.plx_alloc.specs.Asking.{IsOnDevice};
    ghost use Rattle.plx_base.specs.Sectors.{Device};
    ghost use Rattle.plx_disk.specs.Standing.{Stands as DiskStands};
    ghost use Rattle.plx_rules.specs.Formatted.{IsFormatted};
    ghost use Rattle.plx_rules.specs.World as rules;
    ghost use Rattle.plx_rules.specs.Pools.{allocated_in};
    ghost use Rattle.plx_rules.specs.World.{Reached, first_world};
    ghost use Rattle.plx_world.specs.Answering.{RunsCommand, asked_by, pending_of};
    ghost use Rattle.plx_world.specs.Cancels.{NeverCancels};
    ghost use Rattle.plx_world.specs.Standing.{WorldStands, entries_of};

    /// A formatted device at time 1,000 milliseconds, and so many appliances, 1 to 8, each asked nothing yet.
    pub fn new(alloc: Global, geometry: Geometry, appliances: u32) -> Result<World, NoMemory>
        requires low { 1 ≤ appliances }
        requires high { appliances ≤ 8 }
        ensures { IfOk result (λ world. (device : Device) × IsFormatted geometry device
            × WorldStands world (first_world geometry appliances device)) }
    {
        let disk = formatted_disk(alloc, &geometry, FIRST_TIME)?;
        World::over(alloc, geometry, appliances, disk)
    }

    /// So many appliances, 1 to 8, each asked nothing yet, over a device at time 1,000 on which no write was issued yet.
    pub(crate) fn over(
        alloc: Global,
        geometry: Geometry,
        appliances: u32,
        disk: Disk,
    ) -> Result<World, NoMemory>
        requires sized { device_size disk ≡ block_count geometry }
        requires many { appliances ≤ 8 }
        requires uncancelled { NeverCancels disk }
        ensures { IfOk result (λ world. (device : Device)
            → DiskStands disk (first_world geometry appliances device).surface
            → WorldStands world (first_world geometry appliances device)) }
    {
        let mut seats = Vec::new(alloc);
        for number in 0..appliances {
            seats.push(Seat::new(alloc, geometry, ApplianceNo(number))?)?;
        }
        Ok(World {
            alloc,
            geometry,
            disk,
            seats,
            trace: Vec::new(alloc),
        })
    }

    /// What was started, replied and lost, the oldest first.
    pub fn trace(&self) -> &[Entry]
        ensures { result.now ≡ entries_of self.now }
    {
        self.trace.as_slice()
    }

    /// The time, in milliseconds.
    pub fn time(&self) -> u64
        ensures { (w : rules.World) → WorldStands self.now w → result ≡ w.surface.time }
    {
        self.disk.time()
    }

    /// How many blocks of the pool an image reaches. There is no tree yet.
    pub fn reachable(&self) -> Result<u64, NoMemory>
        ensures { IfOk result (λ count. count ≡ 0) }
    {
        Ok(0)
    }

    /// How many blocks of the pool are allocated on the device: those whose bits are set in the maps of their extents. The blocks
    /// of maps don't count.
    pub fn allocated(&self) -> u64
        ensures { (w : rules.World) → Reached w → WorldStands self.now w → result ≡ allocated_in w }
    {
        maps_stay();
        allocated(&self.disk, &self.geometry)
    }

    // What an appliance asks, if it is there and a command runs.
    pub(crate) fn asked(&self, appliance: ApplianceNo) -> Option<Ask>
        ensures ask { (w : rules.World) → WorldStands self.now w → result ≡ asked_by w appliance.0 }
        ensures running { IfSome result (λ ask. RunsCommand self.now appliance.0) }
        ensures within { IfSome result (IsOnDevice self.now.geometry) }
    {
        let index = appliance.0 as usize;
        if index >= self.seats.len() {
            return None;
        }
        self.seats[index].asked()
    }

    // The number of the write for which an appliance waits, if it is there and waits for one.
    pub(crate) fn pending(&self, appliance: ApplianceNo) -> Option<u64>
        ensures { (w : rules.World) → WorldStands self.now w → result ≡ pending_of w appliance.0 }
    {
        let index = appliance.0 as usize;
        if index >= self.seats.len() {
            return None;
        }
        self.seats[index].pending
    }
}
