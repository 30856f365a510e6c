//! Maps as blocks.
ghost use Rattle.std.specs.Prelude.{◌≡◌};
ghost use Rattle.plx_extent.specs.Maps.{map_bytes as bytes_of_map};

use plx_base::Block;
use plx_extent::ExtentMap;

/// Makes a block the spelling of a map.
pub(crate) fn spell_map(map: &ExtentMap, block: &mut Block)
    ensures { block.new ≡ bytes_of_map map.now }
{
    block.set(map.bytes());
}
