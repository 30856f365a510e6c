//! How many blocks of the pool are allocated.
ghost use Rattle.std.specs.Prelude.{◌≡◌, ◌<◌, ◌≤◌};
ghost use Rattle.plx_disk.specs.Standing.{Stands};
ghost use Rattle.plx_disk.specs.Writes.{Surface};
ghost use Rattle.plx_extent.specs.Maps.{HoldsMap, allocated_count, bits_of};
ghost use Rattle.plx_geom.specs.Geometry.{map_at};
ghost use Rattle.plx_rules.specs.Pools.{HasMaps, allocated_from};

use plx_base::ExtentNo;
use plx_disk::Disk;
use plx_extent::ExtentMap;
use plx_geom::{Geometry, Place};

/// How many blocks of the pool are allocated on a device of this geometry: maps themselves don't
/// count. An extent counts 0 where its map's block holds no map.
///
/// It reads the block of each map once, and takes no memory.
pub fn allocated(disk: &Disk, geometry: &Geometry) -> u64
    ensures { (s : Surface) → Stands disk.now s → HasMaps geometry.now s.device
        → result ≡ allocated_from geometry.now s.device geometry.now.extents 0 }
{
    let mut total = 0;
    for extent in 0..geometry.extents {
        total += u64::from(allocated_of(disk, geometry, ExtentNo(extent)));
    }
    total
}

// How many blocks of an extent are allocated, or 0 where its map's block holds no map.
fn allocated_of(disk: &Disk, geometry: &Geometry, extent: ExtentNo) -> u32
    requires { extent.0 < geometry.now.extents }
    ensures { (s : Surface) → Stands disk.now s
        → HoldsMap geometry.now.extent_blocks (s.device (map_at geometry.now extent.0))
        → result ≡ allocated_count
        (bits_of geometry.now.extent_blocks (s.device (map_at geometry.now extent.0))) }
{
    let Some(block) = disk.stored(geometry.number(Place::Map(extent))) else {
        return 0;
    };
    let Some(map) = ExtentMap::read(block.as_slice(), geometry.extent_blocks) else {
        return 0;
    };
    map.count()
}
