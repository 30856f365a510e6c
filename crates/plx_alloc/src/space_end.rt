//! How work on space ends.
ghost use Rattle.std.specs.Prelude.{◌≡◌};
ghost use Rattle.plx_rules.specs.InUse.{lease_name as name_of_lease};
ghost use Rattle.plx_lease.specs.Uses.{use_of};
ghost use Rattle.plx_rules.specs.Ends.{End, lost_process};
ghost use Rattle.plx_rules.specs.Process.{Process};
ghost use Rattle.plx_rules.specs.Session.{Known};
ghost use Rattle.plx_alloc.specs.Ending.{space_end};
ghost use Rattle.plx_rules.specs.Settings.{Setting};

use plx_base::{ExtentNo, LeaseName, SlotNo};
use plx_commands::Reply;
use plx_geom::Geometry;
use plx_lease::InUse;

/// How a take, or the extents' part of a retire, ends.
#[derive(Drop)]
pub enum SpaceEnd {
    /// It is done, and its command goes on.
    Done,
    /// Its command ends with this refusal.
    Refused(Reply),
}

/// What the lease of this number is called.
pub fn lease_name(geometry: &Geometry, number: u32) -> LeaseName
    ensures { result ≡ name_of_lease geometry.now number }
{
    if number == 0 {
        return LeaseName::Root;
    }
    let image = number - 1;
    if image < geometry.images {
        return LeaseName::Image(SlotNo(image));
    }
    LeaseName::Extent(ExtentNo(image - geometry.images))
}

/// The end where a reading has reached a lease in use.
pub(crate) fn lost(geometry: &Geometry, due: InUse, reading: u64) -> SpaceEnd
    ensures { (s : Setting) (follows : Process End) (known : Known) → s.geometry ≡ geometry.now
        → space_end follows known result ≡ lost_process s known (use_of due) reading }
{
    SpaceEnd::Refused(Reply::Lost {
        lease: lease_name(geometry, due.lease),
        until: due.until,
        reading,
    })
}
