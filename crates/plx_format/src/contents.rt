//! What stands in the blocks of a formatted device that aren't zeros.
ghost use Rattle.std.specs.Prelude.{◌≡◌};
ghost use Rattle.plx_base.specs.declared.lease.LeaseRecord.TheVariants as lease_is;
ghost use Rattle.plx_gate.specs.Images.{image_bytes};
ghost use Rattle.plx_gate.specs.Leases.{lease_bytes};
ghost use Rattle.plx_gate.specs.declared.image.ImageRecord.TheVariants as image_is;
ghost use Rattle.plx_rules.specs.Formatted.{empty_map as map_bytes};

use plx_base::{BLOCK_LEN, LeaseRecord};
use plx_gate::{ImageRecord, write_image, write_lease};

/// The block of a lease that no boot has.
pub fn free_lease() -> [u8; BLOCK_LEN]
    ensures { result ≡ lease_bytes lease_is.Free }
{
    let mut bytes = [0; BLOCK_LEN];
    write_lease(&LeaseRecord::Free, &mut bytes);
    bytes
}

/// The record's block of a slot that never had an image.
pub fn free_record() -> [u8; BLOCK_LEN]
    ensures { result ≡ image_bytes (image_is.Free 0) }
{
    let mut bytes = [0; BLOCK_LEN];
    write_image(&ImageRecord::Free { generation: 0 }, &mut bytes);
    bytes
}

/// The map's block of an extent of which no pool block is taken: bit 0, the map's own, alone is set.
pub fn empty_map() -> [u8; BLOCK_LEN]
    ensures { result ≡ map_bytes }
{
    let mut bytes = [0; BLOCK_LEN];
    bytes[0] = 1;
    bytes
}
