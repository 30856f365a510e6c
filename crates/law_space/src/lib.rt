//! The law of free space: theorems on the blocks that are taken, in every world that events lead to.
//!
//! The functions of this crate are laws: they have no parameters and an empty body, and their contracts
//! are the theorems.
#![tactic(auto)]

ghost use Rattle.law_space.specs.BlockInHand.{BlockInHand};
ghost use Rattle.plx_rules.specs.Pools.{GivesClear, HandsAllocated, HandsApart, TakesSet};

/// A block in the hand of a boot that owns the lease of its extent is allocated on the device.
pub fn hands_are_allocated()
    ensures { HandsAllocated }
{}

/// A block is in the hand of one such boot at most.
pub fn hands_are_apart()
    ensures { HandsApart }
{}

/// A landing makes a block allocated only where it is of a take that rests on the lease of its extent.
pub fn takes_set()
    ensures { TakesSet }
{}

/// A landing makes a block clear only where its write gives blocks back, or sweeps, and rests on
/// the lease of its extent.
pub fn gives_clear()
    ensures { GivesClear }
{}

/// The laws speak of something: a block is taken, and is in the hand of an appliance that owns the
/// lease of its extent.
pub fn a_block_is_in_hand()
    ensures { BlockInHand }
{}
