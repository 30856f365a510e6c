//! What a block is for.
ghost use Rattle.std.specs.Prelude.{◌≡◌, ◌+◌, ◌*◌, ◌<◌, ◌^◌, Some};
ghost use Rattle.plx_geom.specs.Geometry.{descriptor_at, extents_start, journal_start, map_at};
ghost use Rattle.plx_geom.specs.Limits.{StandsIn};
ghost use Rattle.plx_geom.specs.Places.{IsPlace, block_of};

use crate::geometry::Geometry;
use plx_base::{BlockNo, ExtentNo, SlotNo};

/// What stands in a block.
#[derive(Clone, Copy, PartialEq, Eq)]
pub enum Place {
    /// The superblock.
    Super,
    /// The root's lease.
    RootLease,
    /// The lease of an image.
    ImageLease(SlotNo),
    /// The lease of an extent.
    ExtentLease(ExtentNo),
    /// The record of an image.
    Record(SlotNo),
    /// The snapshot log of an image.
    Log(SlotNo),
    /// The descriptor of a journal slot of an image, slots counted from 0.
    JDesc(SlotNo, u32),
    /// The data of a journal slot of an image, slots counted from 0.
    JData(SlotNo, u32),
    /// The map of an extent.
    Map(ExtentNo),
    /// The pool block of an extent that a bit of its map stands for, bits from 1 on.
    Pool(ExtentNo, u32),
}

impl Geometry {
    /// What stands in a block, or `None` past the device's end.
    pub fn place(&self, block: BlockNo) -> Option<Place>
        ensures stands { StandsIn self.now block.0 result }
        ensures one { (p : Place) → IsPlace self.now p → block_of self.now p ≡ block.0
            → result ≡ Some p }
    {
        let images = u64::from(self.images);
        let image_leases = 2;
        let extent_leases = image_leases + images;
        let records = extent_leases + u64::from(self.extents);
        let logs = records + images;
        let at = block.0;
        if at >= self.blocks() {
            return None;
        }
        if at == 0 {
            return Some(Place::Super);
        }
        if at < image_leases {
            return Some(Place::RootLease);
        }
        if at < extent_leases {
            return Some(Place::ImageLease(SlotNo((at - image_leases) as u32)));
        }
        if at < records {
            return Some(Place::ExtentLease(ExtentNo((at - extent_leases) as u32)));
        }
        if at < logs {
            return Some(Place::Record(SlotNo((at - records) as u32)));
        }
        if at < self.journal_start() {
            return Some(Place::Log(SlotNo((at - logs) as u32)));
        }
        if at < self.extents_start() {
            return Some(self.journal_place(at - self.journal_start()));
        }
        Some(self.extent_place(at - self.extents_start()))
    }

    // What stands in a block of the journals, counted from their first.
    fn journal_place(&self, at: u64) -> Place
        requires { at < 2 * (self.now.images * self.now.slots) }
        ensures place { IsPlace self.now result }
        ensures here { block_of self.now result ≡ journal_start self.now + at }
    {
        let index = at / 2;
        let slots = u64::from(self.slots);
        let image = SlotNo((index / slots) as u32);
        let slot = (index % slots) as u32;
        if at % 2 == 0 {
            Place::JDesc(image, slot)
        } else {
            Place::JData(image, slot)
        }
    }

    // What stands in a block of the extents, counted from their first.
    fn extent_place(&self, at: u64) -> Place
        requires { at < self.now.extents * self.now.extent_blocks }
        ensures place { IsPlace self.now result }
        ensures here { block_of self.now result ≡ extents_start self.now + at }
    {
        let extent_blocks = u64::from(self.extent_blocks);
        let extent = ExtentNo((at / extent_blocks) as u32);
        let bit = (at % extent_blocks) as u32;
        if bit == 0 {
            Place::Map(extent)
        } else {
            Place::Pool(extent, bit)
        }
    }

    /// The block of a place.
    pub fn number(&self, place: Place) -> BlockNo
        requires { IsPlace self.now place }
        ensures { result.0 ≡ block_of self.now place }
    {
        let images = u64::from(self.images);
        let extents = u64::from(self.extents);
        BlockNo(match place {
            Place::Super => 0,
            Place::RootLease => 1,
            Place::ImageLease(image) => 2 + u64::from(image.0),
            Place::ExtentLease(extent) => 2 + images + u64::from(extent.0),
            Place::Record(image) => 2 + images + extents + u64::from(image.0),
            Place::Log(image) => 2 + 2 * images + extents + u64::from(image.0),
            Place::JDesc(image, slot) => self.descriptor(image, slot),
            Place::JData(image, slot) => self.descriptor(image, slot) + 1,
            Place::Map(extent) => self.map(extent),
            Place::Pool(extent, bit) => self.map(extent) + u64::from(bit),
        })
    }

    // The descriptor of a journal slot of an image.
    fn descriptor(&self, image: SlotNo, slot: u32) -> u64
        requires image { image.0 < self.now.images }
        requires slot { slot < self.now.slots }
        ensures same { result ≡ descriptor_at self.now image.0 slot }
        ensures high { result < 2 ^ 26 }
    {
        let index = u64::from(image.0) * u64::from(self.slots) + u64::from(slot);
        self.journal_start() + 2 * index
    }

    // The map of an extent.
    fn map(&self, extent: ExtentNo) -> u64
        requires { extent.0 < self.now.extents }
        ensures same { result ≡ map_at self.now extent.0 }
        ensures high { result < 2 ^ 26 }
    {
        self.extents_start() + u64::from(extent.0) * u64::from(self.extent_blocks)
    }
}
