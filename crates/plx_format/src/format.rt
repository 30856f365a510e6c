//! A formatted device.
ghost use Rattle.std.specs.Prelude.{◌≡◌, ◌<◌, ◌+◌, ◌*◌, ◌^◌, ℕ, length, IfOk, OnOk};
ghost use Rattle.plx_disk.specs.Standing.{Turns, device_size, issued_count};
ghost use Rattle.plx_format.specs.Formatting.{StandsFormatted, with_blocks};
ghost use Rattle.plx_geom.specs.Geometry.{block_count};

use crate::contents::{empty_map, free_lease, free_record};
use plx_base::{Block, BlockNo, ExtentNo, NoMemory, SlotNo};
use plx_disk::Disk;
use plx_geom::{Geometry, Place, write_superblock};
use std::alloc::Global;

/// A formatted device of this geometry, at that time in milliseconds: no lease is claimed, no slot has
/// had an image, no pool block is taken, and no write was issued. The only error is want of memory.
///
/// How much memory and time it takes isn't promised. It writes the superblock and the blocks of leases,
/// records and maps, and none of those that are zeros, however many there are.
pub fn formatted_disk(alloc: Global, geometry: &Geometry, time: u64) -> Result<Disk, NoMemory>
    requires early { time < 2 ^ 47 }
    ensures formatted { IfOk result (λ disk. StandsFormatted geometry.now time disk) }
    ensures blocks { IfOk result (λ disk. device_size disk ≡ block_count geometry.now) }
{
    let images = u64::from(geometry.images);
    let extents = u64::from(geometry.extents);
    let stride = u64::from(geometry.extent_blocks);
    let leases = 1 + images + extents;
    let start = geometry.number(Place::Super);
    let first_lease = geometry.number(Place::RootLease);
    let first_record = geometry.number(Place::Record(SlotNo(0)));
    let first_map = geometry.number(Place::Map(ExtentNo(0)));

    let mut disk = Disk::new(alloc, geometry.blocks(), time)?;
    let mut superblock = Block::zeros(alloc)?;
    write_superblock(geometry, &mut superblock);
    fill(&mut disk, start, 1, 1, superblock.as_slice())?;
    fill(&mut disk, first_lease, 1, leases, &free_lease())?;
    fill(&mut disk, first_record, 1, images, &free_record())?;
    fill(&mut disk, first_map, stride, extents, &empty_map())?;
    Ok(disk)
}

// Puts the same bytes into so many blocks, from the first on, a stride apart. After NoMemory some of
// them may hold the bytes.
fn fill(
    disk: &mut Disk,
    first: BlockNo,
    stride: u64,
    count: u64,
    bytes: &[u8],
) -> Result<(), NoMemory>
    requires unissued { issued_count disk.old ≡ 0 }
    requires high { device_size disk.old < 2 ^ 26 }
    requires within { (i : ℕ) → i < count → first.0 + i * stride < device_size disk.old }
    requires whole { length bytes.now ≡ 4096 }
    ensures ok { OnOk result (Turns disk.old disk.new
        (λ s. with_blocks s first.0 stride count bytes.now)) }
    ensures unissued { OnOk result (issued_count disk.new ≡ 0) }
    ensures blocks { OnOk result (device_size disk.new ≡ device_size disk.old) }
{
    for i in 0..count {
        disk.set(BlockNo(first.0 + i * stride), bytes)?;
    }
    Ok(())
}
