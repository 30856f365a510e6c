//! Blocks of 4,096 bytes, which land sector by sector.
ghost use Rattle.std.specs.Prelude.{◌≡◌, ◌<◌, ◌+◌, ◌*◌, ◌≤◌, ◌↔◌, length, All, IfOk, IsTrue};
ghost use Rattle.plx_base.specs.Blocks.{filled, with_bytes_at, zeros};
ghost use Rattle.plx_base.specs.Sectors.{with_landed_sector};
ghost use Rattle.plx_base.specs.Spelling.{fields_width, block_of_fields};

use crate::stored::{Field, put_record};
use std::alloc::{AllocError, Global};
use std::marker::Model;

/// The bytes of a block.
pub const BLOCK_LEN: usize = 4096;

/// The bytes of a sector.
pub const SECTOR_LEN: usize = 512;

/// The sectors of a block.
pub const SECTORS: u8 = 8;

/// A block of 4,096 bytes.
#[derive(Drop)]
pub struct Block {
    bytes: Box<[u8; BLOCK_LEN]>,
}

impl Model for Block {
    ghost use Rattle.std.specs.Prelude.{ℕ, List};

    ghost Value = { List ℕ };

    ghost view = { λ b. b.bytes.value };
}

impl Block {
    /// A block of one byte throughout.
    pub fn filled(alloc: Global, byte: u8) -> Result<Block, AllocError>
        ensures { IfOk result (λ b. b ≡ filled byte) }
    {
        let bytes = Box::new(alloc, [byte; BLOCK_LEN])?;
        Ok(Block { bytes })
    }

    /// A block of zeros.
    pub fn zeros(alloc: Global) -> Result<Block, AllocError>
        ensures { IfOk result (λ b. b ≡ zeros) }
    {
        Block::filled(alloc, 0)
    }

    /// The block's bytes.
    pub fn as_slice(&self) -> &[u8]
        ensures same { result.now ≡ self.now }
        ensures len { length self.now ≡ 4096 }
    {
        &self.bytes[..]
    }

    /// An equal block.
    pub fn copy(&self, alloc: Global) -> Result<Block, AllocError>
        ensures { IfOk result (λ b. b ≡ self.now) }
    {
        let bytes = Box::new(alloc, *self.bytes)?;
        Ok(Block { bytes })
    }

    /// Whether each byte is this one.
    pub fn is_filled(&self, byte: u8) -> bool
        ensures { IsTrue result ↔ (self.now ≡ filled byte) }
    {
        are_all(self.as_slice(), byte)
    }

    /// Makes the block equal to these bytes.
    pub fn set(&mut self, bytes: &[u8])
        requires { length bytes.now ≡ 4096 }
        ensures { self.new ≡ bytes.now }
    {
        self.bytes[..].copy_from_slice(bytes);
    }

    /// Makes the block zeros.
    pub fn clear(&mut self)
        ensures { self.new ≡ zeros }
    {
        self.bytes[..].fill(0);
    }

    /// Writes bytes at a place of the block.
    pub fn copy_from(&mut self, at: usize, bytes: &[u8])
        requires { at + length bytes.now ≤ 4096 }
        ensures { self.new ≡ with_bytes_at at bytes.now self.old }
    {
        copy_at(&mut self.bytes[..], at, bytes);
    }

    /// Makes the block a record: the magic, the fields one after another, the last bytes, and zeros.
    pub fn put_record(&mut self, magic: &[u8], fields: &[Field], last: &[u8])
        requires { length magic.now + (fields_width fields.now + length last.now) ≤ 4096 }
        ensures { self.new ≡ block_of_fields magic.now fields.now last.now }
    {
        put_record(&mut self.bytes[..], magic, fields, last);
    }

    /// One sector of another block lands.
    pub fn land(&mut self, sector: u8, from: &Block)
        requires { sector < 8 }
        ensures { self.new ≡ with_landed_sector sector from.now self.old }
    {
        land_sector(&mut self.bytes[..], &from.bytes[..], usize::from(sector));
    }
}

/// Whether each byte is this one.
pub fn are_all(bytes: &[u8], byte: u8) -> bool
    ensures { IsTrue result ↔ All (λ b. b ≡ byte) bytes.now }
{
    if !bytes.is_empty() && bytes[0] != byte {
        return false;
    }
    // No early exit, so that many bytes are compared at once.
    let mut same = true;
    for other in bytes {
        same &= *other == byte;
    }
    same
}

// Writes bytes over those from a place on.
pub(crate) fn copy_at(bytes: &mut [u8], at: usize, new: &[u8])
    requires { at + length new.now ≤ length bytes.old }
    ensures { bytes.new ≡ with_bytes_at at new.now bytes.old }
{
    bytes[at..at + new.len()].copy_from_slice(new);
}

fn land_sector(old: &mut [u8], new: &[u8], sector: usize)
    requires long_old { length old.old ≡ 4096 }
    requires long_new { length new.now ≡ 4096 }
    requires within { sector < 8 }
    ensures { old.new ≡ with_landed_sector sector new.now old.old }
{
    let start = SECTOR_LEN * sector;
    let end = start + SECTOR_LEN;
    let part = &mut old[start..end];
    part.copy_from_slice(&new[start..end]);
}
