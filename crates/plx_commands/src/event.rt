use crate::Command;
use plx_base::{ApplianceNo, WriteKind};

/// One event of a schedule. Times and readings are in milliseconds.
#[derive(Drop)]
pub enum Event {
    /// Time passes.
    Tick {
        by: u32,
    },
    /// The appliance is given a command.
    Start {
        appliance: ApplianceNo,
        command: Command,
    },
    /// The read that the appliance asks for is answered.
    Read {
        appliance: ApplianceNo,
    },
    /// The write that the appliance asks for is issued.
    Issue {
        appliance: ApplianceNo,
    },
    /// One sector lands, of the write that the appliance issued with `back` newer ones.
    Land {
        appliance: ApplianceNo,
        back: u64,
        sector: u8,
    },
    /// The write that the appliance asks for is answered: all of it has landed.
    Done {
        appliance: ApplianceNo,
    },
    /// The read or the write that the appliance asks for is answered: it failed. What has landed
    /// stays, and what is missing may still land.
    Fault {
        appliance: ApplianceNo,
    },
    /// The write that the appliance asks for is answered, without being issued: at this reading its
    /// guard is past.
    Miss {
        appliance: ApplianceNo,
        reading: u64,
    },
    /// The clock answers the appliance.
    Reading {
        appliance: ApplianceNo,
        reading: u64,
    },
    /// The appliance loses all that it has in memory.
    Crash {
        appliance: ApplianceNo,
    },
    /// The appliance's asks are answered until its reply.
    Run {
        appliance: ApplianceNo,
    },
    /// The same, but no ask that matches the stop is answered.
    Upto {
        appliance: ApplianceNo,
        stop: Stop,
    },
}

/// Where an `upto` stops.
#[derive(Clone, Copy)]
pub enum Stop {
    /// At a write of this kind that isn't issued yet.
    Write(WriteKind),
    /// At a read in this region.
    Read(Region),
}

/// A part of the device.
#[derive(Clone, Copy, PartialEq, Eq)]
pub enum Region {
    /// The leases, of all three kinds.
    Lease,
    /// The image records.
    Record,
    /// The snapshot logs.
    Log,
    /// The journals: descriptors and data.
    Journal,
    /// The allocation maps.
    Map,
    /// The blocks of the trees.
    Pool,
}
