//! Maps of extents.
ghost use Rattle.std.specs.Prelude.{◌≡◌, ◌≤◌, ◌<◌, ◌+◌, ◌/◌, get_or, length, not, position, IfSome, slice_set, true, false};
ghost use Rattle.plx_base.specs.Spelling.{IsReading, OnlySector};
ghost use Rattle.plx_extent.specs.Landing.{bit_sector};
ghost use Rattle.plx_extent.specs.Maps.{IsMap, allocated_count, kept_map, map_bytes};

use crate::marks::MarkSet;
use crate::words::{count_set, first_clear, is_clear_from, keep_marked};
use plx_base::BLOCK_LEN;
use std::marker::Model;

/// The map of an extent: a bit for each of its blocks, set where the block is taken. Bit 0 stands
/// for the map's own block, and is always set.
#[derive(Drop)]
pub struct ExtentMap {
    bytes: [u8; BLOCK_LEN],
    blocks: u32,
}

impl Model for ExtentMap {
    ghost use Rattle.std.specs.Prelude.{Bool, List};
    ghost use Rattle.plx_extent.specs.Maps.{HoldsMap, bits_of};

    ghost Value = { List Bool };

    ghost view = { λ m. bits_of m.blocks m.bytes };

    ghost invariant = { λ m. HoldsMap m.blocks m.bytes };
}

impl ExtentMap {
    /// The map of an extent of so many blocks, from 16 to 32,768, that bytes spell, or `None` where
    /// the bytes are outside the format: they aren't 4,096, bit 0 is clear, or a bit past the extent
    /// is set.
    pub fn read(bytes: &[u8], blocks: u32) -> Option<ExtentMap>
        requires least { 16 ≤ blocks }
        requires most { blocks ≤ 32768 }
        ensures { IsReading (IsMap blocks) map_bytes bytes.now result }
    {
        if bytes.len() != BLOCK_LEN {
            return None;
        }
        if bytes[0] % 2 == 0 || !is_clear_from(bytes, blocks as usize) {
            return None;
        }
        let mut own = [0; BLOCK_LEN];
        own.copy_from_slice(bytes);
        Some(ExtentMap { bytes: own, blocks })
    }

    /// The block of 4,096 bytes that spells the map.
    pub fn bytes(&self) -> &[u8]
        ensures same { result.now ≡ map_bytes self.now }
        ensures len { length result.now ≡ 4096 }
    {
        &self.bytes
    }

    /// Whether a bit is set.
    pub fn is_taken(&self, bit: u32) -> bool
        requires { bit < length self.now }
        ensures { result ≡ get_or self.now bit false }
    {
        (self.bytes[bit as usize / 8] >> (bit % 8)) % 2 == 1
    }

    /// The least bit that is clear, or `None` where each is set.
    pub fn first_free(&self) -> Option<u32>
        ensures least { result ≡ position not self.now }
        ensures free { IfSome result (λ bit. (1 ≤ bit) × (bit < length self.now)) }
    {
        let bit = first_clear(&self.bytes);
        if bit < self.blocks { Some(bit) } else { None }
    }

    /// Sets a bit. The map's block changes in the bit's sector alone.
    pub fn set(&mut self, bit: u32)
        requires least { 1 ≤ bit }
        requires most { bit < length self.old }
        ensures bits { self.new ≡ slice_set self.old bit true }
        ensures sector { OnlySector (bit_sector bit) (map_bytes self.new) (map_bytes self.old) }
    {
        self.bytes[bit as usize / 8] |= 1 << (bit % 8);
    }

    /// Clears a bit. The map's block changes in the bit's sector alone.
    pub fn clear(&mut self, bit: u32)
        requires least { 1 ≤ bit }
        requires most { bit < length self.old }
        ensures bits { self.new ≡ slice_set self.old bit false }
        ensures sector { OnlySector (bit_sector bit) (map_bytes self.new) (map_bytes self.old) }
    {
        self.bytes[bit as usize / 8] &= !(1 << (bit % 8));
    }

    /// How many bits are set, but for bit 0.
    pub fn count(&self) -> u32
        ensures { result ≡ allocated_count self.now }
    {
        count_set(&self.bytes) - 1
    }

    /// Clears each bit whose block isn't marked, but for bit 0, and tells how many of them were
    /// set.
    pub fn keep_only<M: MarkSet>(&mut self, marks: &M) -> u32
        ensures kept { self.new ≡ kept_map (M.is_marked marks.now) self.old }
        ensures cleared { result + allocated_count self.new ≡ allocated_count self.old }
        ensures len { length self.new ≡ length self.old }
    {
        let before = self.count();
        keep_marked(&mut self.bytes, marks);
        before - self.count()
    }
}
