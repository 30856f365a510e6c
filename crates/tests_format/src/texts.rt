//! Traces whose text is written out by hand, line by line.
use crate::devices::{GREATEST, SMALL};
use crate::entries::Asked::{Attach, Create, Delete, Detach, Read, Renew, Write};
use crate::entries::Lease::{Extent, Image, Root};
use crate::entries::Line::{Crash, Reply as Answer, Start};
use crate::entries::Name::{DiskOne, Hyphened, Unnamed};
use crate::entries::Seen::{ByBoot257, ByLastBoot, Unclaimed};
use crate::entries::Told::{
    AlreadyAttached, Busy, Created, Damaged, Data, Deleted, Detached, Exists, Free, Full, Lost,
    NoImage, NotAttached, OutOfRange, ReadFault, Renewed, Snapshots, WornOut, WriteFault, Written,
};
use crate::entries::{Line, entry};
use crate::lines::with_digits;
use plx_base::{ApplianceNo, Block, NoMemory, Payload};
use plx_commands::{Entries, Entry, Reply};
use plx_geom::Geometry;
use plx_text::print_trace;
use std::alloc::Global;
use std::process::Abort;
use std::slice;

/// The entries of these lines.
fn entries(alloc: Global, lines: &[Line]) -> Result<Entries, NoMemory> {
    let mut entries = Entries::new(alloc);
    for line in lines {
        entries.push(entry(*line))?;
    }
    Ok(entries)
}

/// Whether the trace of a device with so many appliances, and the two counts of its last line, is
/// spelled so.
fn is_printed(
    alloc: Global,
    (geometry, appliances): (&Geometry, u32),
    entries: &[Entry],
    (reachable, allocated): (u64, u64),
    spelled: &str,
) -> bool {
    match print_trace(alloc, geometry, appliances, entries, reachable, allocated) {
        Ok(text) => text.as_slice() == spelled.as_bytes(),
        Err(_) => false,
    }
}

/// Commands and their replies.
const COMMANDS: &str = "world 256 512 32768 64 8
start 0 attach 3
reply 7 attached live=0 gen=2 size=0 writes=0 taken=0 dropped=0 label=-
reply 7 attached live=1 gen=4294967295 size=8 writes=18446744073709551615 taken=2 dropped=1 label=disk-1
start 0 create 3 134217728 a-b
reply 7 created
start 0 create 3 0 -
reply 7 exists
start 0 read 3 10
reply 7 data all:a0
start 0 write 3 7 all:0f
reply 7 written 1
start 0 renew
reply 7 renewed
start 0 delete 3
reply 7 deleted
start 0 detach 3
reply 7 detached
crash 7
end reachable=20 allocated=3
";

const COMMAND_LINES: &[Line] = &[
    Start(0, Attach(3)),
    Answer(7, Free(2)),
    Answer(
        7,
        Snapshots(4_294_967_295, 8, 18_446_744_073_709_551_615, 2, 1, DiskOne),
    ),
    Start(0, Create(3, 134_217_728, Hyphened)),
    Answer(7, Created),
    Start(0, Create(3, 0, Unnamed)),
    Answer(7, Exists),
    Start(0, Read(3, 10)),
    Answer(7, Data(0xa0)),
    Start(0, Write(3, 7, 0x0f)),
    Answer(7, Written(1)),
    Start(0, Renew),
    Answer(7, Renewed),
    Start(0, Delete(3)),
    Answer(7, Deleted),
    Start(0, Detach(3)),
    Answer(7, Detached),
    Crash(7),
];

/// Refusals.
const REFUSALS: &str = "world 1 1 16 2 1
reply 7 not-attached
reply 7 already-attached
reply 7 no-image
reply 7 out-of-range size=134217728
reply 7 busy lease=root free
reply 7 busy lease=image:3 boot=257 claim=18446744073709551615 sample=5 until=10005
reply 7 busy lease=extent:511 boot=340282366920938463463374607431768211455 claim=18446744073709551615 sample=5 until=10005
reply 7 lost lease=root until=1400 reading=1401
reply 7 lost lease=image:255 until=1400 reading=1401
reply 7 lost lease=extent:17 until=1400 reading=1401
reply 7 read-fault block=6
reply 7 write-fault block=7
reply 7 full
reply 7 damaged block=0
reply 7 worn count=4294967295
end reachable=0 allocated=0
";

const REFUSAL_LINES: &[Line] = &[
    Answer(7, NotAttached),
    Answer(7, AlreadyAttached),
    Answer(7, NoImage),
    Answer(7, OutOfRange(134_217_728)),
    Answer(7, Busy(Root, Unclaimed)),
    Answer(7, Busy(Image(3), ByBoot257)),
    Answer(7, Busy(Extent(511), ByLastBoot)),
    Answer(7, Lost(Root, 1400, 1401)),
    Answer(7, Lost(Image(255), 1400, 1401)),
    Answer(7, Lost(Extent(17), 1400, 1401)),
    Answer(7, ReadFault(6)),
    Answer(7, WriteFault(7)),
    Answer(7, Full),
    Answer(7, Damaged(0)),
    Answer(7, WornOut(4_294_967_295)),
];

/// The trace of these lines is spelled so.
fn prints(
    rt: &impl Abort,
    alloc: Global,
    world: (&Geometry, u32),
    lines: &[Line],
    counts: (u64, u64),
    spelled: &str,
) {
    let entries = entries(alloc, lines).expect(rt, "memory");
    let is_printed = is_printed(alloc, world, entries.as_slice(), counts, spelled);
    assert!(rt; is_printed, "{spelled}");
}

#[test]
fn commands_and_refusals_have_their_words(rt: HostRuntime) {
    let alloc = rt.alloc();
    prints(&rt, alloc, (&GREATEST, 8), COMMAND_LINES, (20, 3), COMMANDS);
    prints(&rt, alloc, (&SMALL, 1), REFUSAL_LINES, (0, 0), REFUSALS);
}

/// A reply that a block was read whose bytes are this one but for the last.
fn data(alloc: Global, (byte, last): (u8, u8)) -> Result<Entry, NoMemory> {
    let mut block = Block::filled(alloc, byte)?;
    block.copy_from(4095, &[last]);
    Ok(Entry::Reply {
        appliance: ApplianceNo(7),
        reply: Reply::Data {
            payload: Payload::Whole(block),
        },
    })
}

/// Whether a trace in which a block is read whose bytes are the first one but for the last is
/// spelled so.
fn is_read(alloc: Global, bytes: (u8, u8), spelled: &str) -> bool {
    match data(alloc, bytes) {
        Ok(reply) => is_printed(alloc, (&SMALL, 1), slice::from_ref(&reply), (0, 0), spelled),
        Err(_) => false,
    }
}

/// The trace in which a block of one byte is read.
const EQUAL: &str = "world 1 1 16 2 1\nreply 7 data all:ff\nend reachable=0 allocated=0\n";

/// How the trace begins and ends in which a block of two bytes is read.
const START: &str = "world 1 1 16 2 1\nreply 7 data hex:";

const END: &str = "09\nend reachable=0 allocated=0\n";

fn two_bytes_are_read(alloc: Global) -> bool {
    match with_digits(alloc, START, ("ab", 4095), END) {
        Ok(spelled) => is_read(alloc, (0xab, 0x09), spelled.as_str()),
        Err(_) => false,
    }
}

#[test]
fn a_block_is_spelled_by_one_byte_or_by_all(rt: HostRuntime) {
    assert!(rt; is_read(rt.alloc(), (0xff, 0xff), EQUAL), "one byte");
    assert!(rt; two_bytes_are_read(rt.alloc()), "two bytes");
}
