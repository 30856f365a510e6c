//! Records as blocks.
ghost use Rattle.std.specs.Prelude.{◌≡◌};
ghost use Rattle.plx_gate.specs.Descriptors.{IsDescriptor};
ghost use Rattle.plx_gate.specs.Descriptors.{descriptor_bytes as bytes_of_descriptor};
ghost use Rattle.plx_gate.specs.Images.{IsImage};
ghost use Rattle.plx_gate.specs.Images.{image_bytes as bytes_of_image};

use plx_base::{BLOCK_LEN, Block};
use plx_gate::{Descriptor, ImageRecord, write_descriptor, write_image};

/// Makes a block the spelling of a descriptor.
pub fn spell_descriptor(descriptor: &Descriptor, block: &mut Block)
    requires { IsDescriptor descriptor.now }
    ensures { block.new ≡ bytes_of_descriptor descriptor.now }
{
    let mut bytes = [0; BLOCK_LEN];
    write_descriptor(descriptor, &mut bytes);
    block.set(&bytes);
}

/// Makes a block the spelling of an image's record.
pub fn spell_image(image: &ImageRecord, block: &mut Block)
    requires { IsImage image.now }
    ensures { block.new ≡ bytes_of_image image.now }
{
    let mut bytes = [0; BLOCK_LEN];
    write_image(image, &mut bytes);
    block.set(&bytes);
}
