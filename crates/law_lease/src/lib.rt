//! The law of leases: theorems on every world of appliances that events lead to.
//!
//! The functions of this crate are laws: they have no parameters and an empty body, and their contracts
//! are the theorems. They speak of leases, writes and times, and of no image's content.
#![tactic(auto)]

ghost use Rattle.law_lease.specs.FirstDevice.{HasFormatted};
ghost use Rattle.law_lease.specs.TakenOver.{TakenOver};
ghost use Rattle.plx_rules.specs.Boots.{BootsHaveNumbers, BootsRun};
ghost use Rattle.plx_rules.specs.Homes.{RestsAsNeeded, WritesHaveHomes};
ghost use Rattle.plx_rules.specs.Owners.{Exclusion, Guarding, WaitsRestAsAsked};
ghost use Rattle.plx_rules.specs.Sequences.{PlayedIsReached, RunsGoOn};

/// At most one boot owns a lease, the root's, an image's or an extent's.
pub fn exclusion()
    ensures { Exclusion }
{}

/// Each issued write rests on its home, which its kind and block tell, on what its kind needs beside
/// that, and on nothing else; a claim rests on nothing.
pub fn writes_rest_as_needed()
    ensures { RestsAsNeeded }
{}

/// Whatever its kind, each issued write but a claim has a home, under which its block lies.
pub fn writes_have_homes()
    ensures { WritesHaveHomes }
{}

/// The write that a boot waits for rests on what its command, what the boot holds and what it has
/// filled since its last link give.
pub fn waits_rest_as_asked()
    ensures { WaitsRestAsAsked }
{}

/// No landing of a write that rests on a lease changes a byte while another boot owns that lease.
pub fn guarding()
    ensures { Guarding }
{}

/// The log of each boot is a run: each answer was to the ask that stood.
pub fn boots_run()
    ensures { BootsRun }
{}

/// Each boot has a number of its own, and the owner of each issued write is the number of a boot.
pub fn boots_have_numbers()
    ensures { BootsHaveNumbers }
{}

/// A run of an appliance is never stuck: its next event is possible.
pub fn runs_go_on()
    ensures { RunsGoOn }
{}

/// What a schedule plays from a world that events lead to is such a world, wherever it stops.
pub fn played_is_reached()
    ensures { PlayedIsReached }
{}

/// Each geometry has a formatted device, with which a world can begin.
pub fn formatted_devices_exist()
    ensures { HasFormatted }
{}

/// The laws speak of something: a lease is owned, an image is made and written under it, and it is
/// lost and taken over.
pub fn a_lease_is_taken_over()
    ensures { TakenOver }
{}
