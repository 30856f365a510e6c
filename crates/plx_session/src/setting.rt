//! What a boot is given.
ghost use Rattle.std.specs.Prelude.{◌≡◌, ◌<◌, ◌^◌};
ghost use Rattle.plx_rules.specs.InUse.{lease_name as name_of_lease};
ghost use Rattle.plx_geom.specs.Geometry.{IsGeometry, block_count, lease_count};
ghost use Rattle.plx_geom.specs.Places.{IsPlace};
ghost use Rattle.plx_geom.specs.Places.{block_of as place_block};

use plx_base::{ApplianceNo, BlockNo, Boot, ExtentNo, LeaseName, SlotNo};
use plx_geom::{Geometry, Place};

/// The layout of the device, which appliance it is, and the number of this start of it.
#[derive(Clone, Copy)]
pub struct Setting {
    pub geometry: Geometry,
    pub appliance: ApplianceNo,
    pub boot: Boot,
    ghost limits: { IsGeometry geometry },
    ghost numbered: { boot.0 < 2 ^ 128 },
}

impl Setting {
    /// The setting of an appliance's boot.
    pub fn new(geometry: Geometry, appliance: ApplianceNo, boot: Boot) -> Setting
        ensures geometry { result.geometry ≡ geometry }
        ensures appliance { result.appliance ≡ appliance }
        ensures boot { result.boot ≡ boot }
    {
        Setting {
            geometry,
            appliance,
            boot,
        }
    }

    /// The block of a place of the device.
    pub fn block(&self, place: Place) -> BlockNo
        requires { IsPlace self.now.geometry place }
        ensures block { result.0 ≡ place_block self.now.geometry place }
        ensures within { result.0 < block_count self.now.geometry }
    {
        self.geometry.number(place)
    }

    /// How many leases there are: the root's, those of the images, and those of the extents.
    pub fn lease_count(&self) -> u32
        ensures { result ≡ lease_count self.now.geometry }
    {
        1 + self.geometry.images + self.geometry.extents
    }

    /// What the lease of this number is called.
    pub fn lease_name(&self, number: u32) -> LeaseName
        ensures { result ≡ name_of_lease self.now.geometry number }
    {
        if number == 0 {
            return LeaseName::Root;
        }
        let image = number - 1;
        if image < self.geometry.images {
            return LeaseName::Image(SlotNo(image));
        }
        LeaseName::Extent(ExtentNo(image - self.geometry.images))
    }
}
