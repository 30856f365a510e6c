//! Geometries and their limits.
ghost use Rattle.std.specs.Prelude.{◌≡◌, ◌↔◌, ◌<◌, ◌≤◌, ◌^◌, IsTrue, IsOk, IfOk, IfErr};
ghost use Rattle.plx_geom.specs.Geometry.{IsGeometry, block_count, extents_start, geometry_of, journal_start};
ghost use Rattle.plx_geom.specs.Limits.{IsGeometryCause};

use std::marker::Model;
use thiserror::Error;

/// How a device is laid out. Each field is within its limits.
#[derive(Clone, Copy, PartialEq, Eq)]
pub struct Geometry {
    /// The images, from 1 to 256.
    pub images: u32,
    /// The extents, from 1 to 512.
    pub extents: u32,
    /// The blocks of each extent, its map included, from 16 to 32,768.
    pub extent_blocks: u32,
    /// The journal slots of each image, from 2 to 64.
    pub slots: u32,
}

impl Model for Geometry {
    ghost use Rattle.plx_geom.specs.Geometry.{Geometry as Layout, IsGeometry, geometry_of};

    ghost Value = { Layout };

    ghost view = { λ g. geometry_of g.images g.extents g.extent_blocks g.slots };

    ghost invariant = { λ g. IsGeometry (geometry_of g.images g.extents g.extent_blocks g.slots) };

    ghost inverse = { λ g. record {
      images = g.images;
      extents = g.extents;
      extent_blocks = g.extent_blocks;
      slots = g.slots;
    } };
}

/// Why numbers are no geometry.
#[derive(Debug, Drop, Error)]
pub enum GeometryError {
    /// This field, counted from 0, is the first out of its limits, and has this value.
    #[error("field {field} is out of its limits: {value}")]
    OutOfLimit { field: u8, value: u32 },
}

impl Geometry {
    /// The geometry of these numbers.
    pub fn new(
        images: u32,
        extents: u32,
        extent_blocks: u32,
        slots: u32,
    ) -> Result<Geometry, GeometryError>
        ensures limits { IsOk result ↔ IsGeometry (geometry_of images extents extent_blocks slots) }
        ensures same { IfOk result (λ g. g ≡ geometry_of images extents extent_blocks slots) }
        ensures cause { IfErr result
            (λ error. IsGeometryCause error (geometry_of images extents extent_blocks slots)) }
    {
        if !is_within(images, 1, 256) {
            return Err(GeometryError::OutOfLimit {
                field: 0,
                value: images,
            });
        }
        if !is_within(extents, 1, 512) {
            return Err(GeometryError::OutOfLimit {
                field: 1,
                value: extents,
            });
        }
        if !is_within(extent_blocks, 16, 32_768) {
            return Err(GeometryError::OutOfLimit {
                field: 2,
                value: extent_blocks,
            });
        }
        if !is_within(slots, 2, 64) {
            return Err(GeometryError::OutOfLimit {
                field: 3,
                value: slots,
            });
        }
        Ok(Geometry {
            images,
            extents,
            extent_blocks,
            slots,
        })
    }

    /// The blocks of the device.
    pub fn blocks(&self) -> u64
        ensures same { result ≡ block_count self.now }
        ensures high { result < 2 ^ 26 }
        ensures limits { IsGeometry self.now }
    {
        self.extents_start() + u64::from(self.extents) * u64::from(self.extent_blocks)
    }

    // The first block of the journals.
    pub(crate) fn journal_start(&self) -> u64
        ensures { result ≡ journal_start self.now }
    {
        2 + 3 * u64::from(self.images) + u64::from(self.extents)
    }

    // The first block of the extents.
    pub(crate) fn extents_start(&self) -> u64
        ensures { result ≡ extents_start self.now }
    {
        self.journal_start() + 2 * (u64::from(self.images) * u64::from(self.slots))
    }
}

fn is_within(value: u32, least: u32, greatest: u32) -> bool
    ensures { IsTrue result ↔ ((least ≤ value) × (value ≤ greatest)) }
{
    least <= value && value <= greatest
}
