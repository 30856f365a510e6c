//! The headline of worlds under leases: theorems on every world of appliances that events lead to.
//!
//! The functions of this crate are laws: they have no parameters and an empty body, and their contracts
//! are the theorems. They say what replies and the device's images are, by the block-list model.
#![tactic(auto)]

ghost use Rattle.law_headline.specs.Crashes.{CrashesLeaveFreshBoots};
ghost use Rattle.plx_rules.specs.Headline.{HeadlineOfAll, NeverDamaged};
ghost use Rattle.plx_rules.specs.Reachable.{OneLevel, OnePath, ReachableAllocated};
ghost use Rattle.plx_rules.specs.Pools.{MapsStay};

/// Every world that events lead to meets the headline: its trace tells of its possible starts and
/// crashes, the block-list model permits that trace, and the device stores the model's images.
pub fn headline()
    ensures { HeadlineOfAll }
{}

/// No reply tells of bytes outside the format, since each world starts with a formatted device.
pub fn never_damaged()
    ensures { NeverDamaged }
{}

/// A crash leaves the fresh appliance of the next boot, whose number is new, and changes no other
/// appliance and no write.
pub fn crash_leaves_a_fresh_boot()
    ensures { CrashesLeaveFreshBoots }
{}

/// The block of each extent's map holds a map, in every world that events lead to.
pub fn maps_stay()
    ensures { MapsStay }
{}

/// Each block that a path from a root reaches is allocated, in every world that events lead to; it has one
/// level, and one on a marked path is on no other.
pub fn reachable_blocks_are_allocated()
    ensures allocated { ReachableAllocated }
    ensures level { OneLevel }
    ensures single { OnePath }
{}
