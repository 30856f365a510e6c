//! The kinds of lease.
ghost use Rattle.std.specs.Prelude.{◌≡◌};
ghost use Rattle.plx_base.specs.declared.lease.LeaseName.{LeaseName};

use plx_base::{ExtentNo, LeaseName, SlotNo};

/// A kind of lease. A value of the kind is one lease.
pub trait LeaseKind: Copy {
    ghost called: { Self → LeaseName };

    /// What the lease is called.
    fn name(self) -> LeaseName
        ensures { result ≡ called self };
}

/// The root's lease.
#[derive(Clone, Copy)]
pub struct Root;

/// The lease of the image in this slot.
#[derive(Clone, Copy)]
pub struct Image(pub SlotNo);

/// The lease of this extent.
#[derive(Clone, Copy)]
pub struct Extent(pub ExtentNo);

impl LeaseKind for Root {
    ghost called = { λ lease. LeaseName.Root };

    fn name(self) -> LeaseName {
        LeaseName::Root
    }
}

impl LeaseKind for Image {
    ghost called = { λ lease. LeaseName.Image lease.0 };

    fn name(self) -> LeaseName {
        LeaseName::Image(self.0)
    }
}

impl LeaseKind for Extent {
    ghost called = { λ lease. LeaseName.Extent lease.0 };

    fn name(self) -> LeaseName {
        LeaseName::Extent(self.0)
    }
}
