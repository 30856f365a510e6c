//! The superblock, which tells a device's geometry.
ghost use Rattle.std.specs.Prelude.{◌≡◌, ◌↔◌, ◌≢◌, List, ℕ, IsOk, IfOk, IfErr, IsTrue, OnErr};
ghost use Rattle.plx_base.specs.Spelling.{block_of_fields};
ghost use Rattle.plx_geom.specs.Geometry.{Geometry as Layout, IsGeometry};
ghost use Rattle.plx_geom.specs.Superblock.{superblock_bytes, superblock_fields};

use crate::geometry::Geometry;
use plx_base::{Block, BlockNo, Field, get_u32, is_record};

/// The bytes that begin a superblock.
const MAGIC: &[u8] = b"PLXSUPR1";

/// A block whose bytes aren't in the format.
#[derive(Clone, Copy)]
pub struct Damaged {
    /// The block that was read.
    pub block: BlockNo,
}

/// Makes a block the superblock of a device of this geometry.
pub fn write_superblock(geometry: &Geometry, block: &mut Block)
    ensures { block.new ≡ superblock_bytes geometry.now }
{
    block.put_record(MAGIC, &fields(geometry), &[]);
}

/// The geometry that a superblock tells. Damaged, with block 0, where the bytes are no superblock's.
pub fn read_superblock(block: &Block) -> Result<Geometry, Damaged>
    ensures spelled { IfOk result (λ g. block.now ≡ superblock_bytes g) }
    ensures limits { IfOk result IsGeometry }
    ensures damaged { OnErr result ((g : Layout) → IsGeometry g → block.now ≢ superblock_bytes g) }
    ensures cause { IfErr result (λ error. error.block.0 ≡ 0) }
{
    let damaged = Damaged { block: BlockNo(0) };
    let bytes = block.as_slice();
    let images = get_u32(bytes, 8);
    let extents = get_u32(bytes, 12);
    let extent_blocks = get_u32(bytes, 16);
    let slots = get_u32(bytes, 20);
    let Ok(geometry) = Geometry::new(images, extents, extent_blocks, slots) else {
        return Err(damaged);
    };
    if !is_record(bytes, MAGIC, &fields(&geometry), &[]) {
        return Err(damaged);
    }
    Ok(geometry)
}

// The fields of a superblock.
fn fields(geometry: &Geometry) -> [Field; 4]
    ensures { result ≡ superblock_fields geometry.now }
{
    [
        Field::U32(geometry.images),
        Field::U32(geometry.extents),
        Field::U32(geometry.extent_blocks),
        Field::U32(geometry.slots),
    ]
}
