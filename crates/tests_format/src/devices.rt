//! The devices on which tests play.
use plx_geom::Geometry;

/// The smallest device.
pub const SMALL: Geometry = Geometry {
    images: 1,
    extents: 1,
    extent_blocks: 16,
    slots: 2,
};

/// The greatest device.
pub const GREATEST: Geometry = Geometry {
    images: 256,
    extents: 512,
    extent_blocks: 32_768,
    slots: 64,
};
