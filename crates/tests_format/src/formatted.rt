//! A device just formatted, whose blocks are written out by hand.
use plx_base::{BlockNo, are_all};
use plx_disk::Disk;
use plx_format::formatted_disk;
use plx_geom::Geometry;

/// How a block begins on the device of two images, two extents of 16 blocks and two slots:
/// superblock, leases of the root, of the images and of the extents, records, and the maps. The
/// rest is zeros.
fn front(number: u64) -> &'static [u8] {
    match number {
        0 => b"PLXSUPR1\x02\0\0\0\x02\0\0\0\x10\0\0\0\x02\0\0\0",
        1..=5 => b"PLXLEAS1",
        6 | 7 => b"PLXIMAG1",
        18 | 34 => b"\x01",
        _ => b"",
    }
}

/// Whether a block of the device is spelled so. One that isn't stored is zeros.
fn is_spelled(disk: &Disk, number: u64) -> bool {
    let Some(block) = disk.stored(BlockNo(number)) else {
        return front(number).is_empty();
    };
    match block.as_slice().strip_prefix(front(number)) {
        Some(rest) => are_all(rest, 0),
        None => false,
    }
}

/// The device's geometry.
const GEOMETRY: Geometry = Geometry {
    images: 2,
    extents: 2,
    extent_blocks: 16,
    slots: 2,
};

/// Whether the device has its 50 blocks, and nothing was asked of it yet.
fn is_fresh(disk: &Disk) -> bool {
    disk.blocks() == 50 && disk.time() == 1_000 && disk.issued() == 0
}

#[test]
fn each_block_of_a_formatted_device_is_spelled_by_hand(rt: HostRuntime) {
    let disk = formatted_disk(rt.alloc(), &GEOMETRY, 1_000).expect(&rt, "memory");
    assert!(rt; is_fresh(&disk), "the device");
    for number in 0..50 {
        assert!(rt; is_spelled(&disk, number), "{number}");
    }
}
