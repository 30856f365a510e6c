//! Maps of extents whose bytes are written out by hand.
use plx_extent::ExtentMap;

/// The block of a map of which bit 0 is the map's own, and blocks 1 to 8 and those of a second byte
/// are taken.
fn map(second: u8) -> [u8; 4096] {
    let mut bytes = [0; 4096];
    bytes[0] = 0xff;
    bytes[1] = second;
    bytes
}

/// The first block that is free is taken.
fn take(map: &mut ExtentMap) -> Option<u32> {
    let free = map.first_free()?;
    map.set(free);
    Some(free)
}

/// The next block, how many are taken then, and the second byte of the map.
const TAKEN: &[(u32, u32, u8)] = &[
    (9, 10, 0x07),
    (11, 11, 0x0f),
    (12, 12, 0x1f),
    (13, 13, 0x3f),
];

/// Whether this block is the next one, and how the map stands then.
fn takes(found: &mut ExtentMap, block: u32, count: u32, second: u8) -> bool {
    take(found) == Some(block) && found.count() == count && found.bytes() == map(second).as_slice()
}

#[test]
fn fresh_blocks_are_taken_in_order(rt: HostRuntime) {
    let mut found = ExtentMap::read(&map(0x05), 16).expect(&rt, "a map");
    assert!(rt; found.count() == 9, "nine blocks are taken");
    for &(block, count, second) in TAKEN {
        assert!(rt; takes(&mut found, block, count, second), "{block}");
    }
}

/// A map of so many blocks, all of which are taken as far as whole bytes go, or none but its own;
/// with this byte at this place.
fn spelled(blocks: u32, all: bool, place: usize, byte: u8) -> [u8; 4096] {
    let mut bytes = [0; 4096];
    bytes[0] = 1;
    if all && let Some(taken) = bytes.get_mut(..blocks as usize / 8) {
        taken.fill(0xff);
    }
    if let Some(changed) = bytes.get_mut(place) {
        *changed = byte;
    }
    bytes
}

/// A map of so many blocks as `spelled` takes it; how many blocks are taken but for the map's own,
/// and the first that isn't; or none where a bit past the extent is set, or the map's own isn't.
type Holes = (u32, bool, (usize, u8), Option<(u32, Option<u32>)>);

const HOLES: &[Holes] = &[
    (16, true, (0, 0xff), Some((15, None))),
    (16, false, (0, 0x01), Some((0, Some(1)))),
    (16, true, (0, 0xfd), Some((14, Some(1)))),
    (16, true, (1, 0xfe), Some((14, Some(8)))),
    (16, true, (1, 0x7f), Some((14, Some(15)))),
    (16, true, (0, 0xfe), None),
    (16, false, (0, 0x00), None),
    (16, true, (2, 0x01), None),
    (16, false, (2, 0x01), None),
    (16, false, (2, 0x80), None),
    (16, true, (4095, 0x80), None),
    (17, true, (2, 0x01), Some((16, None))),
    (17, true, (2, 0x00), Some((15, Some(16)))),
    (17, true, (2, 0x03), None),
    (64, true, (7, 0x7f), Some((62, Some(63)))),
    (64, true, (8, 0x01), None),
    (32_768, true, (0, 0xff), Some((32_767, None))),
    (32_768, false, (0, 0x01), Some((0, Some(1)))),
    (32_768, true, (0, 0xfd), Some((32_766, Some(1)))),
    (32_768, true, (8, 0xfe), Some((32_766, Some(64)))),
    (32_768, true, (4095, 0x7f), Some((32_766, Some(32_767)))),
];

/// How many blocks are taken, and the first that isn't.
fn holes(map: &ExtentMap) -> Option<(u32, Option<u32>)> {
    Some((map.count(), map.first_free()))
}

/// Whether the first hole is taken once it is filled, and counted. It is cleared then.
fn is_filled(map: &mut ExtentMap) -> bool {
    let count = map.count();
    let Some(hole) = map.first_free() else {
        return true;
    };
    let was = map.is_taken(hole);
    map.set(hole);
    let is = map.is_taken(hole) && map.count() == count.saturating_add(1);
    map.clear(hole);
    is && !was
}

/// Whether the bytes are a map with these holes, the first of which is filled and cleared again, or
/// none.
fn is_map(bytes: &[u8; 4096], blocks: u32, wanted: Option<(u32, Option<u32>)>) -> bool {
    if blocks < 16 || 32_768 < blocks {
        return false;
    }
    match ExtentMap::read(bytes, blocks) {
        Some(mut map) => {
            holes(&map) == wanted && is_filled(&mut map) && map.bytes() == bytes.as_slice()
        }
        None => wanted.is_none(),
    }
}

fn has_holes(case: &Holes) -> bool {
    let (blocks, all, (place, byte), wanted) = *case;
    is_map(&spelled(blocks, all, place, byte), blocks, wanted)
}

#[test]
fn the_first_hole_of_a_map_is_found_and_filled(rt: HostRuntime) {
    for (number, case) in HOLES.iter().enumerate() {
        assert!(rt; has_holes(case), "{number}");
    }
    assert!(rt; ExtentMap::read(&[1; 4095], 32_768).is_none(), "no block");
}
