//! Which blocks of an extent are taken.
ghost use Rattle.std.specs.Prelude.{◌≡◌, ◌≤◌, ◌<◌, ◌^◌, ℕ, length, take, true, false};
ghost use Rattle.arrayvec.specs.ArrayVec.{array_vec_len};
ghost use Rattle.plx_commands.specs.Replies.{is_in};
ghost use Rattle.plx_rules.specs.Hands.{set_since};
ghost use Rattle.plx_rules.specs.Space.{free_from, is_own_set, with_clear, with_set};
ghost use Rattle.plx_alloc.specs.Pools.{AreBetween};
ghost use Rattle.plx_alloc.specs.Tables.{has_any, numbers};

use crate::allocator::HAND_LEN;
use arrayvec::ArrayVec;
use plx_base::BlockNo;
use plx_extent::ExtentMap;

/// Takes as many of the free blocks of an extent as are needed, the lowest first, and sets their
/// bits. The extent has so many blocks, of which the map's own is `map`; blocks in hand aren't
/// free.
pub(crate) fn choose(
    bits: &mut ExtentMap,
    blocks: u32,
    map: BlockNo,
    hand: &[BlockNo],
    need: usize,
) -> ArrayVec<BlockNo, HAND_LEN>
    requires need { need ≤ 256 }
    requires map { map.0 < 2 ^ 32 }
    requires own { is_own_set bits.old ≡ true }
    requires blocks { blocks ≡ length bits.old }
    ensures taken { numbers result.items ≡ take need (free_from (numbers hand.now) map.0 bits.old) }
    ensures set { bits.new ≡ with_set (numbers result.items) map.0 bits.old }
    ensures len { array_vec_len result ≤ need }
    ensures own { AreBetween map.0 blocks result.items }
{
    let mut taken = ArrayVec::new();
    for bit in 1..blocks {
        if taken.len() == need {
            return taken;
        }
        let block = BlockNo(map.0 + u64::from(bit));
        if bits.is_taken(bit) {
            continue;
        }
        if is_among(block, hand) {
            continue;
        }
        bits.set(bit);
        taken.push(block);
    }
    taken
}

/// Whether an extent has a free block. The extent has so many blocks, of which the map's own is
/// `map`; blocks in hand aren't free.
pub(crate) fn has_free(bits: &ExtentMap, blocks: u32, map: BlockNo, hand: &[BlockNo]) -> bool
    requires map { map.0 < 2 ^ 32 }
    requires own { is_own_set bits.now ≡ true }
    requires blocks { blocks ≡ length bits.now }
    ensures { result ≡ has_any (free_from (numbers hand.now) map.0 bits.now) }
{
    for bit in 1..blocks {
        if !bits.is_taken(bit) && !is_among(BlockNo(map.0 + u64::from(bit)), hand) {
            return true;
        }
    }
    false
}

/// Clears the bits of the blocks in hand of an extent, and tells which of them were set. The extent
/// has so many blocks, of which the map's own is `map`.
pub(crate) fn clear(
    bits: &mut ExtentMap,
    blocks: u32,
    map: BlockNo,
    hand: &[BlockNo],
) -> ArrayVec<BlockNo, HAND_LEN>
    requires blocks { blocks ≡ length bits.old }
    requires most { length hand.now ≤ 256 }
    requires apart { is_in map.0 (numbers hand.now) ≡ false }
    ensures own { AreBetween map.0 blocks result.items }
    ensures given { (block : ℕ) → is_in block (numbers result.items)
        ≡ is_in block (set_since map.0 bits.new bits.old) }
    ensures cleared { bits.new ≡ with_clear (numbers hand.now) map.0 bits.old }
{
    let mut given = ArrayVec::new();
    for block in hand {
        if block.0 >= map.0 && block.0 - map.0 < u64::from(blocks) {
            let bit = (block.0 - map.0) as u32;
            if bits.is_taken(bit) {
                bits.clear(bit);
                given.push(*block);
            }
        }
    }
    given
}

/// Whether a block is one of these.
pub(crate) fn is_among(block: BlockNo, blocks: &[BlockNo]) -> bool
    ensures { result ≡ is_in block.0 (numbers blocks.now) }
{
    for other in blocks {
        if *other == block {
            return true;
        }
    }
    false
}
