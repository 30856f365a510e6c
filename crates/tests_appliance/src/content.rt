//! Blocks of a device, spelled by hand.
use plx_base::{Block, NoMemory};
use std::alloc::Global;

/// What a block has.
#[derive(Clone, Copy)]
pub(crate) enum Content {
    Zeros,
    /// All bytes are this one.
    Filled(u8),
    /// A lease that no one holds.
    FreeLease,
    /// A lease's claim: its boot, its number, its sample and its end.
    Lease(u8, u64, u64, u64),
    /// A lease that no one holds, with this byte at this place.
    FreeBut(usize, u8),
    /// The claim of boot 8 from 900 to 10,900 ms, with this byte at this place.
    LeaseBut(usize, u8),
    /// The record of a slot that is free, after so many images.
    FreeSlot(u8),
    /// The record of an image of eight blocks, named `a`: its generation, and the number of the
    /// last write that its tree has.
    LiveSlot(u8, u8),
    /// The record of such an image with a byte after its fields.
    NoSlot(u8),
    /// The descriptor of a write: its generation, its virtual block and its number.
    Descriptor(u8, u8, u8),
}

impl Content {
    /// The block.
    pub(crate) fn block(self, alloc: Global) -> Result<Block, NoMemory> {
        let mut block = Block::zeros(alloc)?;
        match self {
            Content::Zeros => {}
            Content::Filled(byte) => block.copy_from(0, &[byte; 4096]),
            Content::FreeLease => block.copy_from(0, b"PLXLEAS1"),
            Content::Lease(boot, number, sample, until) => {
                spell_lease(&mut block, boot, number, sample, until);
            }
            Content::FreeBut(place, byte) => {
                block.copy_from(0, b"PLXLEAS1");
                spell_byte(&mut block, place, byte);
            }
            Content::LeaseBut(place, byte) => {
                spell_lease(&mut block, 8, 0, 900, 10_900);
                spell_byte(&mut block, place, byte);
            }
            Content::FreeSlot(generation) => spell_slot(&mut block, generation),
            Content::LiveSlot(generation, applied) => {
                spell_image(&mut block, generation, applied, 0);
            }
            Content::NoSlot(generation) => spell_image(&mut block, generation, 0, 1),
            Content::Descriptor(generation, vblock, number) => {
                spell_descriptor(&mut block, generation, vblock, number);
            }
        }
        Ok(block)
    }

    /// Whether these are the block's bytes.
    pub(crate) fn is(self, alloc: Global, bytes: &[u8]) -> bool {
        match self.block(alloc) {
            Ok(block) => block.as_slice() == bytes,
            Err(_) => false,
        }
    }
}

// This byte at this place.
fn spell_byte(block: &mut Block, place: usize, byte: u8) {
    if place < 4096 {
        block.copy_from(place, &[byte]);
    }
}

fn spell_lease(block: &mut Block, boot: u8, number: u64, sample: u64, until: u64) {
    block.copy_from(0, b"PLXLEAS1\x01");
    block.copy_from(16, &[boot]);
    block.copy_from(32, &number.to_le_bytes());
    block.copy_from(40, &sample.to_le_bytes());
    block.copy_from(48, &until.to_le_bytes());
}

fn spell_slot(block: &mut Block, generation: u8) {
    block.copy_from(0, b"PLXIMAG1");
    block.copy_from(12, &[generation]);
}

fn spell_image(block: &mut Block, generation: u8, applied: u8, last: u8) {
    block.copy_from(0, b"PLXIMAG1\x01");
    block.copy_from(12, &[generation]);
    block.copy_from(16, &[8]);
    block.copy_from(32, &[applied]);
    block.copy_from(40, b"\x01\0\0\0\0\0\0\0a");
    block.copy_from(80, &[last]);
}

fn spell_descriptor(block: &mut Block, generation: u8, vblock: u8, number: u8) {
    block.copy_from(0, b"PLXJRNL1");
    block.copy_from(8, &[generation]);
    block.copy_from(12, &[vblock]);
    block.copy_from(16, &[number]);
}
