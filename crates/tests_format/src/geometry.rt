//! Geometries, their places and their superblocks, worked out by hand.
ghost use Rattle.plx_geom.specs.Geometry.{IsGeometry};

use crate::devices::SMALL;
use plx_base::{Block, BlockNo, ExtentNo, NoMemory, SlotNo};
use plx_geom::{Geometry, GeometryError, Place, read_superblock, write_superblock};
use std::alloc::Global;
use std::process::Abort;

/// Images, extents, blocks of an extent and slots, and the field that is named with its value, or
/// none where all are within their limits.
const LIMITS: &[([u32; 4], Option<(u8, u32)>)] = &[
    ([0, 1, 16, 2], Some((0, 0))),
    ([257, 1, 16, 2], Some((0, 257))),
    ([1, 0, 16, 2], Some((1, 0))),
    ([1, 513, 16, 2], Some((1, 513))),
    ([1, 1, 15, 2], Some((2, 15))),
    ([1, 1, 32_769, 2], Some((2, 32_769))),
    ([1, 1, 16, 1], Some((3, 1))),
    ([1, 1, 16, 65], Some((3, 65))),
    ([0, 0, 0, 0], Some((0, 0))),
    ([256, 513, 15, 65], Some((1, 513))),
    ([1, 512, 15, 65], Some((2, 15))),
    ([1, 1, 16, 2], None),
    ([256, 512, 32_768, 64], None),
];

/// The field that is out of its limits, with its value.
fn out_of_limits(numbers: [u32; 4]) -> Option<(u8, u32)> {
    let [images, extents, blocks, slots] = numbers;
    match Geometry::new(images, extents, blocks, slots) {
        Ok(_) => None,
        Err(GeometryError::OutOfLimit { field, value }) => Some((field, value)),
    }
}

#[test]
fn a_field_out_of_its_limits_is_named(rt: HostRuntime) {
    for (case, &(numbers, named)) in LIMITS.iter().enumerate() {
        assert!(rt; out_of_limits(numbers) == named, "{case}");
    }
}

/// A device of two images.
const TWO: Geometry = Geometry {
    images: 2,
    extents: 2,
    extent_blocks: 64,
    slots: 8,
};

const IMAGE: SlotNo = SlotNo(0);

const EXTENT: ExtentNo = ExtentNo(0);

/// What stands in the blocks of the smallest device.
const PLACES: &[(u64, Option<Place>)] = &[
    (0, Some(Place::Super)),
    (1, Some(Place::RootLease)),
    (2, Some(Place::ImageLease(IMAGE))),
    (3, Some(Place::ExtentLease(EXTENT))),
    (4, Some(Place::Record(IMAGE))),
    (5, Some(Place::Log(IMAGE))),
    (6, Some(Place::JDesc(IMAGE, 0))),
    (7, Some(Place::JData(IMAGE, 0))),
    (8, Some(Place::JDesc(IMAGE, 1))),
    (9, Some(Place::JData(IMAGE, 1))),
    (10, Some(Place::Map(EXTENT))),
    (11, Some(Place::Pool(EXTENT, 1))),
    (25, Some(Place::Pool(EXTENT, 15))),
    (26, None),
    (u64::MAX, None),
];

/// What stands in blocks of the device of two images.
const PLACES_OF_TWO: &[(u64, Option<Place>)] = &[
    (5, Some(Place::ExtentLease(ExtentNo(1)))),
    (7, Some(Place::Record(SlotNo(1)))),
    (8, Some(Place::Log(IMAGE))),
    (40, Some(Place::JDesc(SlotNo(1), 7))),
    (41, Some(Place::JData(SlotNo(1), 7))),
    (106, Some(Place::Map(ExtentNo(1)))),
    (169, Some(Place::Pool(ExtentNo(1), 63))),
];

/// Whether the block has this place, which has the block, or none.
fn is_placed(geometry: &Geometry, block: u64, place: Option<Place>) -> bool
    requires { IsGeometry geometry.now }
{
    match geometry.place(BlockNo(block)) {
        Some(found) => place == Some(found) && geometry.number(found) == BlockNo(block),
        None => place.is_none(),
    }
}

/// Each block has its place.
fn are_placed(rt: &impl Abort, geometry: &Geometry, cases: &[(u64, Option<Place>)])
    requires { IsGeometry geometry.now }
{
    for &(block, place) in cases {
        assert!(rt; is_placed(geometry, block, place), "{block}");
    }
}

#[test]
fn each_block_has_its_place(rt: HostRuntime) {
    assert!(rt; SMALL.blocks() == 26 && TWO.blocks() == 170, "blocks");
    are_placed(&rt, &SMALL, PLACES);
    are_placed(&rt, &TWO, PLACES_OF_TWO);
}

/// The first bytes of the smallest device's superblock; the rest are zeros.
const SUPERBLOCK: &[u8] = b"PLXSUPR1\x01\0\0\0\x01\0\0\0\x10\0\0\0\x02\0\0\0";

/// That superblock with one byte changed.
fn changed(alloc: Global, place: usize, byte: u8) -> Result<Block, NoMemory> {
    let mut block = Block::zeros(alloc)?;
    block.copy_from(0, SUPERBLOCK);
    if place < 4096 {
        block.copy_from(place, &[byte]);
    }
    Ok(block)
}

/// Whether the smallest device's superblock is written as this block, and read from it.
fn is_spelled(alloc: Global, spelled: &Block) -> bool {
    let Ok(mut block) = Block::filled(alloc, 7) else {
        return false;
    };
    write_superblock(&SMALL, &mut block);
    let is_written = block.as_slice() == spelled.as_slice();
    match read_superblock(spelled) {
        Ok(geometry) => is_written && geometry == SMALL,
        Err(_) => false,
    }
}

/// Whether the block is damaged, which is block 0.
fn is_damaged(block: &Block) -> bool {
    match read_superblock(block) {
        Ok(_) => false,
        Err(damaged) => damaged.block == BlockNo(0),
    }
}

/// The place of a byte, and what stands there instead.
const CHANGES: &[(usize, u8)] = &[
    (0, b'Q'),
    (8, 0),
    (9, 2),
    (12, 0),
    (16, 15),
    (20, 1),
    (24, 1),
    (4095, 1),
];

#[test]
fn a_superblock_is_spelled_by_hand_and_damaged_by_other_bytes(rt: HostRuntime) {
    let spelled = changed(rt.alloc(), 0, b'P').expect(&rt, "memory");
    assert!(rt; is_spelled(rt.alloc(), &spelled), "written and read");
    for &(place, byte) in CHANGES {
        let block = changed(rt.alloc(), place, byte).expect(&rt, "memory");
        assert!(rt; is_damaged(&block), "{place}");
    }
}
