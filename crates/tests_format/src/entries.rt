//! Entries of traces, as plain values that tables name.
use plx_base::{
    ApplianceNo, BlockNo, Boot, Claim, ExtentNo, Label, LeaseName, LeaseRecord, Payload, SlotNo,
};
use plx_commands::{Command, Entry, Reply, Report};

/// The label of an image.
#[derive(Clone, Copy)]
pub(crate) enum Name {
    Unnamed,
    Disk,
    Other,
    /// `disk-1`
    DiskOne,
    /// `a-b`
    Hyphened,
}

/// A command: its slot comes first, then its virtual block or its size.
#[derive(Clone, Copy)]
pub(crate) enum Asked {
    Attach(u32),
    Detach(u32),
    Create(u32, u32, Name),
    Delete(u32),
    Read(u32, u32),
    Write(u32, u32, u8),
    Flush(u32),
    Reserve,
    Renew,
    Retire,
    Reclaim,
}

/// A lease.
#[derive(Clone, Copy)]
pub(crate) enum Lease {
    Root,
    Image(u32),
    Extent(u32),
}

/// What a lease's block says, where it is claimed up to 10,005 ms.
#[derive(Clone, Copy)]
pub(crate) enum Seen {
    Unclaimed,
    ByBoot257,
    ByLastBoot,
}

/// A reply.
#[derive(Clone, Copy)]
pub(crate) enum Told {
    /// The report of a slot that is free, after so many images.
    Free(u32),
    /// The report of an image: its generation, its size, its writes and its label.
    Image(u32, u32, u64, Name),
    /// The same of an image of which so many snapshots were taken and dropped.
    Snapshots(u32, u32, u64, u32, u32, Name),
    Detached,
    Created,
    Deleted,
    Data(u8),
    Written(u64),
    Flushed(u64),
    Reserved,
    Renewed,
    Retired,
    Reclaimed,
    NotAttached,
    AlreadyAttached,
    NoImage,
    Exists,
    OutOfRange(u32),
    Busy(Lease, Seen),
    /// A lease, up to when it was held, and the reading at which it was lost.
    Lost(Lease, u32, u32),
    ReadFault(u64),
    WriteFault(u64),
    Full,
    Damaged(u64),
    WornOut(u64),
}

/// An entry of an appliance.
#[derive(Clone, Copy)]
pub(crate) enum Line {
    Start(u32, Asked),
    Reply(u32, Told),
    Crash(u32),
}

use Asked::{Attach, Create, Delete, Detach, Flush, Read, Reclaim, Renew, Reserve, Retire, Write};
use Told::{
    AlreadyAttached, Busy, Created, Damaged, Data, Deleted, Detached, Exists, Flushed, Free, Full,
    Image, Lost, NoImage, NotAttached, OutOfRange, ReadFault, Reclaimed, Renewed, Reserved,
    Retired, Snapshots, WornOut, WriteFault, Written,
};

fn label(name: Name) -> Label {
    let spelled: &str = match name {
        Name::Unnamed => "",
        Name::Disk => "disk",
        Name::Other => "other",
        Name::DiskOne => "disk-1",
        Name::Hyphened => "a-b",
    };
    Label::new(spelled.as_bytes()).unwrap_or(Label::empty())
}

fn command(asked: Asked) -> Command {
    match asked {
        Attach(slot) => Command::Attach { slot: SlotNo(slot) },
        Detach(slot) => Command::Detach { slot: SlotNo(slot) },
        Create(slot, size, name) => Command::Create {
            slot: SlotNo(slot),
            size,
            label: label(name),
        },
        Delete(slot) => Command::Delete { slot: SlotNo(slot) },
        Read(slot, vblock) => Command::Read {
            slot: SlotNo(slot),
            vblock,
        },
        Write(slot, vblock, byte) => Command::Write {
            slot: SlotNo(slot),
            vblock,
            payload: Payload::All(byte),
        },
        Flush(slot) => Command::Flush { slot: SlotNo(slot) },
        Reserve => Command::Reserve { count: 4 },
        Renew => Command::Renew,
        Retire => Command::Retire,
        Reclaim => Command::Reclaim,
    }
}

fn report(
    generation: u32,
    size: u32,
    writes: u64,
    (taken, dropped): (u32, u32),
    name: Name,
) -> Reply {
    Reply::Attached {
        report: Report {
            live: size != 0,
            generation,
            size,
            writes,
            taken,
            dropped,
            label: label(name),
        },
    }
}

fn lease_name(lease: Lease) -> LeaseName {
    match lease {
        Lease::Root => LeaseName::Root,
        Lease::Image(slot) => LeaseName::Image(SlotNo(slot)),
        Lease::Extent(extent) => LeaseName::Extent(ExtentNo(extent)),
    }
}

fn claimed(boot: u128) -> LeaseRecord {
    LeaseRecord::Claimed {
        claim: Claim {
            boot: Boot(boot),
            number: 18_446_744_073_709_551_615,
            sample: 5,
        },
        until: 10_005,
    }
}

fn record(seen: Seen) -> LeaseRecord {
    match seen {
        Seen::Unclaimed => LeaseRecord::Free,
        Seen::ByBoot257 => claimed(257),
        Seen::ByLastBoot => claimed(340_282_366_920_938_463_463_374_607_431_768_211_455),
    }
}

fn reply(told: Told) -> Reply {
    match told {
        Free(generation) => report(generation, 0, 0, (0, 0), Name::Unnamed),
        Image(generation, size, writes, name) => report(generation, size, writes, (0, 0), name),
        Snapshots(generation, size, writes, taken, dropped, name) => {
            report(generation, size, writes, (taken, dropped), name)
        }
        Detached => Reply::Detached,
        Created => Reply::Created,
        Deleted => Reply::Deleted,
        Data(byte) => Reply::Data {
            payload: Payload::All(byte),
        },
        Written(number) => Reply::Written { number },
        Flushed(applied) => Reply::Flushed { applied, blocks: 9 },
        Reserved => Reply::Reserved,
        Renewed => Reply::Renewed,
        Retired => Reply::Retired,
        Reclaimed => Reply::Reclaimed {
            covered: 3,
            freed: 5,
            reads: 70,
        },
        NotAttached => Reply::NotAttached,
        AlreadyAttached => Reply::AlreadyAttached,
        NoImage => Reply::NoImage,
        Exists => Reply::Exists,
        OutOfRange(size) => Reply::OutOfRange { size },
        Busy(name, seen) => Reply::Busy {
            lease: lease_name(name),
            seen: record(seen),
        },
        Lost(name, until, reading) => Reply::Lost {
            lease: lease_name(name),
            until: u64::from(until),
            reading: u64::from(reading),
        },
        ReadFault(block) => Reply::ReadFault {
            block: BlockNo(block),
        },
        WriteFault(block) => Reply::WriteFault {
            block: BlockNo(block),
        },
        Full => Reply::Full,
        Damaged(block) => Reply::Damaged {
            block: BlockNo(block),
        },
        WornOut(count) => Reply::WornOut { count },
    }
}

/// The entry of a line.
pub(crate) fn entry(line: Line) -> Entry {
    match line {
        Line::Start(appliance, asked) => Entry::Start {
            appliance: ApplianceNo(appliance),
            command: command(asked),
        },
        Line::Reply(appliance, told) => Entry::Reply {
            appliance: ApplianceNo(appliance),
            reply: reply(told),
        },
        Line::Crash(appliance) => Entry::Crash {
            appliance: ApplianceNo(appliance),
        },
    }
}
