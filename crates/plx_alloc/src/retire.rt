//! The extents' part of a retire: blocks in hand are given back, and leases of extents released.
ghost use Rattle.std.specs.Prelude.{◌≡◌, ◌≤◌, ◌+◌, ℕ, List, [], Option, Some, None, IfOk};
ghost use Rattle.plx_base.specs.declared.lease.LeaseRecord.TheVariants.{Free};
ghost use Rattle.plx_gate.specs.Leases.{lease_bytes};

use crate::allocator::Allocator;
use crate::giving::Giving;
use crate::room::MapRoom;
use crate::space_end::{SpaceEnd, lost};
use plx_base::{Block, BlockNo, LeaseRecord, WriteKind};
use plx_commands::Reply;
use plx_disk::{Answer, Ask};
use plx_lease::spell_lease;

/// Where the extents' part of a retire stands.
#[derive(Clone, Copy)]
pub enum RetireAt {
    /// In the giving back of the extent's blocks in hand.
    Give,
    /// At the release of its lease.
    Release,
}

/// The extents' part of a retire, at one of its asks, with a block that spells a free lease.
#[derive(Drop)]
pub struct Retire {
    at: RetireAt,
    giving: Giving,
    free: Block,
    ghost spelled: { free ≡ lease_bytes Free },
}

impl Retire {
    ghost use Rattle.plx_commands.specs.Places.{at};
    ghost use Rattle.plx_disk.specs.declared.ask.Answer.{Answer};
    ghost use Rattle.plx_geom.specs.Geometry.{Geometry, lease_at};
    ghost use Rattle.plx_rules.specs.Boot.{Fits};
    ghost use Rattle.plx_rules.specs.Ends.{End};
    ghost use Rattle.plx_rules.specs.Hands.{found_by, hand_answered};
    ghost use Rattle.plx_lease.specs.Uses.{uses_of};
    ghost use Rattle.plx_rules.specs.Holds.{Nothing};
    ghost use Rattle.plx_rules.specs.Machines.{AreWhole};
    ghost use Rattle.plx_rules.specs.Process.{Ends, answered, standing, bytes_out};
    ghost use Rattle.plx_rules.specs.Space.{retire_extents};
    ghost use Rattle.law_run.specs.Machines.{HasCome, MovesOn};
    ghost use Rattle.law_run.specs.RetireRules.{IsRetireAsk, IsRetireEnd};
    ghost use Rattle.plx_alloc.specs.Asking.{IsOnDevice, retire_spares};
    ghost use Rattle.plx_alloc.specs.Ending.{after_space, space_process};
    ghost use Rattle.plx_alloc.specs.Gives.{Around, around_known};
    ghost use Rattle.plx_alloc.specs.Moving.{TellsRetired, released_at, retire_ask};
    ghost use Rattle.plx_alloc.specs.Retires.{retire_after, retire_extents_from, retire_extents_rest};
    ghost use Rattle.plx_alloc.specs.Suiting.{SuitsRetire};
    ghost use Rattle.plx_alloc.specs.Tables.{HoldsHand, IsSame, allocator_setting, hand_numbers, held_hand, holds_of, extent_leases};

    /// Each extent whose lease is held is to be given up: the retire begins, with the memory of its
    /// writes of maps and a block for its releases, or is over at once.
    pub fn begin(room: MapRoom, lease: Block, space: &Allocator) -> Result<Retire, SpaceEnd>
        requires held { HoldsHand space.now }
        ensures rest { (o : Around) → space_process (retire_extents_rest o space.now) o.rest
            (around_known o space.now) result
            ≡ retire_extents (allocator_setting o.appliance space.now) (around_known o space.now)
            [] (holds_of space.now) (hand_numbers space.now) space.now.geometry.extents 0 o.rest }
        ensures log { (o : Around) → HasCome (retire_extents
            (allocator_setting o.appliance space.now) (around_known o space.now) []
            (holds_of space.now) (hand_numbers space.now) space.now.geometry.extents 0 o.rest) []
            (space_process (retire_extents_rest o space.now) o.rest (around_known o space.now)
            result) }
        ensures suits { IfOk result (λ m. SuitsRetire space.now m) }
        ensures tells { (g : Geometry) (found : Option (ℕ × List ℕ))
            → IfOk result (λ m. TellsRetired g m found) }
    {
        let mut free = lease;
        spell_lease(&LeaseRecord::Free, &mut free);
        let mut retire = Retire {
            at: RetireAt::Give,
            giving: Giving::idle(room, None),
            free,
        };
        match retire.go_on(space, 0) {
            None => Ok(retire),
            Some(end) => Err(end),
        }
    }

    /// The ask that stands.
    pub fn ask(&self) -> Ask
        ensures ask { (o : Around) (a : Allocator)
            → Some result ≡ standing (retire_extents_rest o a self.now) }
        ensures same { result ≡ retire_ask self.now }
        ensures within { (a : Allocator) → SuitsRetire a self.now → IsOnDevice a.geometry result }
        ensures spare { (a : Allocator) → SuitsRetire a self.now
            → retire_spares self.now.at a.geometry self.now result }
        ensures rules { (o : Around) (a : Allocator)
            → IsRetireAsk (retire_extents_rest o a self.now) result }
    {
        match self.at {
            RetireAt::Give => self.giving.ask(),
            RetireAt::Release => Ask::Write {
                kind: WriteKind::Release,
                block: self.lease_block(),
                guard: self.giving.own_use().until,
            },
        }
    }

    /// The bytes of the write that is asked for.
    pub fn out(&self) -> &[u8]
        ensures bytes { (o : Around) (a : Allocator)
            → result.now ≡ bytes_out (retire_extents_rest o a self.now) }
        ensures whole { (o : Around) (a : Allocator)
            → AreWhole (standing (retire_extents_rest o a self.now)) result.now }
    {
        match self.at {
            RetireAt::Give => self.giving.out(),
            RetireAt::Release => self.free.as_slice(),
        }
    }

    /// The ask is answered.
    pub fn answer(&mut self, space: &mut Allocator, answer: &Answer) -> Option<SpaceEnd>
        requires suits { SuitsRetire space.old self.old }
        ensures rest { (o : Around) → after_space (retire_extents_rest o space.new self.new) o.rest
            (around_known o space.new) result
            ≡ answered (retire_extents_rest o space.old self.old) answer.now }
        ensures log { (o : Around) → MovesOn (retire_extents_rest o space.old self.old) answer.now
            (retire_after o space.new self.new result) }
        ensures rules { (o : Around) (end : End)
            → retire_after o space.new self.new result ≡ Ends end
            → IsRetireEnd (retire_after o space.new self.new result) end }
        ensures suits { result ≡ None → SuitsRetire space.new self.new }
        ensures held { HoldsHand space.new }
        ensures same { IsSame space.old space.new }
        ensures claims { space.new.claims ≡ space.old.claims }
        ensures leases { extent_leases space.new ≡ released_at self.old.at answer.now
            self.old.giving.extent.0 (extent_leases space.old) }
        ensures hand { (o : Around) (found : Option (ℕ × List ℕ)) (bytes : List ℕ)
            → TellsRetired space.old.geometry self.old found
            → bytes ≡ bytes_out (retire_extents_rest o space.old self.old)
            → hand_numbers space.new ≡ held_hand space.old.geometry (extent_leases space.new)
            (hand_answered space.old.geometry found (retire_ask self.old) bytes answer.now
            (hand_numbers space.old)) }
        ensures found { Fits (retire_ask self.old) answer.now → result ≡ None
            → TellsRetired space.new.geometry self.new
            (found_by (retire_ask self.old) answer.now) }
    {
        match (self.at, answer) {
            (RetireAt::Give, answer) => match self.giving.answer(space, answer) {
                Some(SpaceEnd::Done) => {
                    self.at = RetireAt::Release;
                    None
                }
                Some(SpaceEnd::Refused(reply)) => Some(SpaceEnd::Refused(reply)),
                None => None,
            },
            (RetireAt::Release, Answer::Done) => self.released(space),
            (RetireAt::Release, Answer::Fault) => Some(SpaceEnd::Refused(Reply::WriteFault {
                block: self.lease_block(),
            })),
            (RetireAt::Release, Answer::Missed(reading)) => {
                Some(lost(&space.geometry(), self.giving.own_use(), *reading))
            }
            _ => None,
        }
    }

    // The lease was released: the retire goes on past its extent.
    fn released(&mut self, space: &mut Allocator) -> Option<SpaceEnd>
        requires suits { SuitsRetire space.old self.old }
        ensures rest { (o : Around) → after_space (retire_extents_rest o space.new self.new) o.rest
            (around_known o space.new) result
            ≡ retire_extents_from o space.old (uses_of self.old.giving.uses)
            (self.old.giving.extent.0 + 1) }
        ensures suits { result ≡ None → SuitsRetire space.new self.new }
        ensures held { HoldsHand space.new }
        ensures same { IsSame space.old space.new }
        ensures claims { space.new.claims ≡ space.old.claims }
        ensures leases { extent_leases space.new
            ≡ at (extent_leases space.old) self.old.giving.extent.0 Nothing }
        ensures hand { hand_numbers space.new ≡ held_hand space.old.geometry
            (extent_leases space.new)
            (hand_numbers space.old) }
        ensures tells { (g : Geometry) (found : Option (ℕ × List ℕ)) → result ≡ None
            → TellsRetired g self.new found }
    {
        let extent = self.giving.extent();
        space.release(extent);
        self.go_on(space, extent.0 + 1)
    }

    // The retire goes on at the next extent, from one on, whose lease is held, or is over.
    fn go_on(&mut self, space: &Allocator, from: u32) -> Option<SpaceEnd>
        requires from { from ≤ space.now.geometry.extents }
        requires held { HoldsHand space.now }
        ensures rest { (o : Around) → after_space (retire_extents_rest o space.now self.new) o.rest
            (around_known o space.now) result
            ≡ retire_extents_from o space.now (uses_of self.old.giving.uses) from }
        ensures suits { result ≡ None → SuitsRetire space.now self.new }
        ensures tells { (g : Geometry) (found : Option (ℕ × List ℕ)) → result ≡ None
            → TellsRetired g self.new found }
    {
        let Some(extent) = space.next_extent(from, true) else {
            return Some(SpaceEnd::Done);
        };
        self.giving.begin(extent, space);
        if space.has_in_hand(extent) {
            self.at = RetireAt::Give;
            return None;
        }
        self.at = RetireAt::Release;
        None
    }

    // The block of the lease.
    fn lease_block(&self) -> BlockNo
        ensures { result.0 ≡ lease_at self.now.giving.lease }
    {
        BlockNo(1 + u64::from(self.giving.own_use().lease))
    }
}
