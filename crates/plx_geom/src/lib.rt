//! Geometries: how many images, extents and journal slots a device has, and what stands in each of
//! its blocks.
#![tactic(auto)]

mod geometry;
mod place;
mod superblock;

pub use geometry::{Geometry, GeometryError};
pub use place::Place;
pub use superblock::{Damaged, read_superblock, write_superblock};
