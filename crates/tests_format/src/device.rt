//! A device on which sectors land out of order, late or not at all.
use plx_base::{Block, BlockNo, Boot, WriteKind};
use plx_disk::Disk;
use std::alloc::Global;

/// What is done with a device of four blocks at time 1,000, and what it tells.
#[derive(Clone, Copy)]
enum Deed {
    /// Block 2 is set to sevens before any write is issued.
    Sets,
    /// A write of sevens to block 2 is issued by boot 9, with this guard.
    Issues(u64),
    /// A sector of a write lands, or doesn't.
    Lands(u64, u8, bool),
    /// A write has landed as a whole, or hasn't.
    Settles(u64, bool),
    /// The first sector that a write misses.
    Misses(u64, Option<u8>),
    Cancels(u64),
    /// The boot that issued a write.
    IsOf(u64, Option<Boot>),
    /// Which sectors of block 2 are sevens. The others are zeros.
    Has([bool; 8]),
}

use Deed::{Cancels, Has, IsOf, Issues, Lands, Misses, Sets, Settles};

/// The deeds are done, one after another. The first that doesn't tell what it should.
fn first_wrong(alloc: Global, deeds: &[Deed]) -> Option<usize> {
    let Ok(mut disk) = Disk::new(alloc, 4, 1000) else {
        return Some(0);
    };
    for (at, deed) in deeds.iter().enumerate() {
        if !make(alloc, &mut disk, *deed) {
            return Some(at);
        }
    }
    None
}

/// The deed is done. Whether it tells what it should.
fn make(alloc: Global, disk: &mut Disk, deed: Deed) -> bool {
    match deed {
        Sets => set(disk),
        Issues(guard) => issue(disk, guard),
        Lands(write, sector, lands) => disk.land(write, sector) == lands,
        Settles(write, settles) => disk.settle(write) == settles,
        Misses(write, sector) => disk.missing(write) == sector,
        Cancels(write) => {
            disk.cancel(write);
            true
        }
        IsOf(write, boot) => disk.owner(write) == boot,
        Has(sectors) => has(alloc, disk, sectors),
    }
}

const SEVENS: &[u8] = &[7; 4096];

fn set(disk: &mut Disk) -> bool {
    disk.issued() == 0 && 2 < disk.blocks() && disk.set(BlockNo(2), SEVENS).is_ok()
}

fn issue(disk: &mut Disk, guard: u64) -> bool {
    let count = disk.issued();
    if disk.blocks() <= 2 || 2000 <= guard {
        return false;
    }
    let number = disk.issue(Boot(9), WriteKind::Fresh, BlockNo(2), SEVENS, guard);
    number == Ok(count)
}

fn has(alloc: Global, disk: &mut Disk, sectors: [bool; 8]) -> bool {
    let Ok(mut seen) = Block::filled(alloc, 9) else {
        return false;
    };
    if disk.blocks() <= 2 {
        return false;
    }
    disk.lend(BlockNo(2), &mut seen);
    let is_spelled = seen.as_slice() == spelled(sectors).as_slice();
    disk.take_back(BlockNo(2), &mut seen);
    is_spelled
}

/// A block of sevens in these sectors, and zeros in the others.
fn spelled(sectors: [bool; 8]) -> [u8; 4096] {
    let mut bytes = [0; 4096];
    for (at, byte) in bytes.iter_mut().enumerate() {
        if sectors.get(at / 512) == Some(&true) {
            *byte = 7;
        }
    }
    bytes
}

const ALL: [bool; 8] = [true; 8];

/// A block that was set is read.
const SET: &[Deed] = &[Sets, Has(ALL)];

/// After each landing of a sector it is there, it can't land again, and the first one that is
/// missing is told.
const LANDINGS: &[Deed] = &[
    Issues(1000),
    Lands(0, 5, true),
    Lands(0, 5, false),
    Has([false, false, false, false, false, true, false, false]),
    Misses(0, Some(0)),
    Settles(0, false),
    Lands(0, 0, true),
    Lands(0, 0, false),
    Has([true, false, false, false, false, true, false, false]),
    Misses(0, Some(1)),
    Settles(0, false),
    Lands(0, 7, true),
    Lands(0, 7, false),
    Has([true, false, false, false, false, true, false, true]),
    Misses(0, Some(1)),
    Settles(0, false),
    Lands(0, 1, true),
    Lands(0, 1, false),
    Has([true, true, false, false, false, true, false, true]),
    Misses(0, Some(2)),
    Settles(0, false),
    Lands(0, 3, true),
    Lands(0, 3, false),
    Has([true, true, false, true, false, true, false, true]),
    Misses(0, Some(2)),
    Settles(0, false),
    Lands(0, 2, true),
    Lands(0, 2, false),
    Has([true, true, true, true, false, true, false, true]),
    Misses(0, Some(4)),
    Settles(0, false),
    Lands(0, 6, true),
    Lands(0, 6, false),
    Has([true, true, true, true, false, true, true, true]),
    Misses(0, Some(4)),
    Settles(0, false),
    Lands(0, 4, true),
    Settles(0, true),
    Misses(0, None),
    Has(ALL),
];

/// A guard of 949 is more than 50 ms ago, and one of 950 isn't.
const LATE_OR_CANCELLED: &[Deed] = &[
    Issues(949),
    Lands(0, 0, false),
    Issues(950),
    Lands(1, 6, true),
    Cancels(1),
    Lands(1, 0, false),
    Settles(1, false),
    Has([false, false, false, false, false, false, true, false]),
    IsOf(1, Some(Boot(9))),
];

const TABLES: &[(&str, &[Deed])] = &[
    ("a block that is set", SET),
    ("sectors in another order", LANDINGS),
    ("a late write and a cancelled one", LATE_OR_CANCELLED),
];

#[test]
fn sectors_land_in_any_order_and_once_and_neither_late_nor_cancelled(rt: HostRuntime) {
    for &(name, deeds) in TABLES {
        assert_eq!(rt; first_wrong(rt.alloc(), deeds), None, "{name}");
    }
}
