//! The laws of all worlds, as the contract of a function of no work.
ghost use Rattle.plx_world.specs.Playing.{LawsHold};

use law_headline::{
    crash_leaves_a_fresh_boot, headline, never_damaged, reachable_blocks_are_allocated,
};
use law_lease::{boots_have_numbers, boots_run, exclusion, guarding};
use law_run::boots_keep_rules;
use law_space::{gives_clear, hands_are_allocated, hands_are_apart, takes_set};

/// What holds of all worlds that events lead to: the headline, no reply of bytes outside the format, one owner a lease, no late
/// write that disturbs an owner, blocks in hand that are allocated and in one hand each, trees on allocated blocks, boots whose
/// logs are runs that keep the rules and whose numbers are their own, and crashes that leave fresh boots.
pub fn laws()
    ensures { LawsHold }
{
    headline();
    never_damaged();
    exclusion();
    guarding();
    hands_are_allocated();
    hands_are_apart();
    takes_set();
    gives_clear();
    reachable_blocks_are_allocated();
    boots_run();
    boots_keep_rules();
    boots_have_numbers();
    crash_leaves_a_fresh_boot();
}
