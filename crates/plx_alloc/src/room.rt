//! The memory of the writes of maps.
ghost use Rattle.std.specs.Prelude.{◌≡◌};
ghost use Rattle.arrayvec.specs.ArrayVec.{array_vec_len};

use crate::allocator::HAND_LEN;
use arrayvec::ArrayVec;
use plx_base::{Block, BlockNo, NoMemory};
use std::alloc::Global;

/// The memory of the writes of maps: a block for a map, and places for the blocks that its write
/// takes or gives back.
#[derive(Drop)]
pub struct MapRoom {
    pub(crate) map: Block,
    pub(crate) moved: Box<ArrayVec<BlockNo, HAND_LEN>>,
    ghost empty: { array_vec_len moved.value ≡ 0 },
}

impl MapRoom {
    /// The memory of the writes of maps, one after another.
    pub fn new(alloc: Global) -> Result<MapRoom, NoMemory> {
        Ok(MapRoom {
            map: Block::zeros(alloc)?,
            moved: Box::new(alloc, ArrayVec::new())?,
        })
    }
}
