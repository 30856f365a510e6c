//! All blocks in hand are given back; the leases of their extents are kept.
ghost use Rattle.std.specs.Prelude.{◌≡◌, ◌≤◌, ◌+◌, ℕ, List, [], Option, Some, None, IfOk};

use crate::allocator::Allocator;
use crate::giving::Giving;
use crate::room::MapRoom;
use crate::space_end::SpaceEnd;
use plx_disk::{Answer, Ask};
use plx_lease::InUse;

/// The giving back of all blocks in hand, at one of its asks.
#[derive(Drop)]
pub struct GiveBack {
    giving: Giving,
}

impl GiveBack {
    ghost use Rattle.plx_disk.specs.declared.ask.Answer.{Answer};
    ghost use Rattle.plx_geom.specs.Geometry.{Geometry};
    ghost use Rattle.plx_lease.specs.Uses.{uses_of};
    ghost use Rattle.plx_rules.specs.Boot.{Fits};
    ghost use Rattle.plx_rules.specs.Ends.{End};
    ghost use Rattle.plx_rules.specs.Hands.{found_by, hand_answered};
    ghost use Rattle.plx_rules.specs.Machines.{AreWhole};
    ghost use Rattle.plx_rules.specs.Process.{Ends, answered, standing, bytes_out};
    ghost use Rattle.law_run.specs.Machines.{HasCome, MovesOn};
    ghost use Rattle.plx_alloc.specs.Asking.{IsOnDevice, SparesLeases};
    ghost use Rattle.plx_alloc.specs.Ending.{after_space, space_process};
    ghost use Rattle.plx_alloc.specs.GiveBackRules.{IsGiveBackAsk, IsGiveBackEnd};
    ghost use Rattle.plx_alloc.specs.Gives.{Around, around_known, give_back_after, give_back_rest, give_extents, give_from};
    ghost use Rattle.plx_alloc.specs.Moving.{TellsGiven, giving_ask};
    ghost use Rattle.plx_alloc.specs.Suiting.{SuitsGiveBack};
    ghost use Rattle.plx_alloc.specs.Tables.{HoldsHand, IsSame, allocator_setting, hand_numbers, holds_of, extent_leases};

    /// All blocks in hand are to be given back: it begins, with the memory of its writes, or is
    /// over at once. Of the leases that its command has in use the one to be named stands for all.
    pub fn begin(
        room: MapRoom,
        uses: Option<InUse>,
        space: &Allocator,
    ) -> Result<GiveBack, SpaceEnd>
        requires held { HoldsHand space.now }
        ensures rest { (o : Around) → space_process (give_back_rest o space.now) o.rest
            (around_known o space.now) result
            ≡ give_extents (allocator_setting o.appliance space.now) (around_known o space.now)
            (uses_of uses) (holds_of space.now) (hand_numbers space.now)
            space.now.geometry.extents 0 o.rest }
        ensures log { (o : Around) → HasCome (give_extents (allocator_setting o.appliance space.now)
            (around_known o space.now) (uses_of uses) (holds_of space.now) (hand_numbers space.now)
            space.now.geometry.extents 0 o.rest) [] (space_process (give_back_rest o space.now) o.rest
            (around_known o space.now) result) }
        ensures suits { IfOk result (λ m. SuitsGiveBack space.now m) }
        ensures tells { (g : Geometry) (found : Option (ℕ × List ℕ))
            → IfOk result (λ m. TellsGiven g m.giving found) }
    {
        let mut back = GiveBack {
            giving: Giving::idle(room, uses),
        };
        match back.go_on(space, 0) {
            None => Ok(back),
            Some(end) => Err(end),
        }
    }

    /// The ask that stands.
    pub fn ask(&self) -> Ask
        ensures ask { (o : Around) (a : Allocator)
            → Some result ≡ standing (give_back_rest o a self.now) }
        ensures same { result ≡ giving_ask self.now.giving }
        ensures within { (a : Allocator) → SuitsGiveBack a self.now → IsOnDevice a.geometry result }
        ensures spare { (a : Allocator) → SuitsGiveBack a self.now
            → SparesLeases a.geometry result }
        ensures rules { (o : Around) (a : Allocator)
            → IsGiveBackAsk (give_back_rest o a self.now) result }
    {
        self.giving.ask()
    }

    /// The bytes of the write that is asked for.
    pub fn out(&self) -> &[u8]
        ensures bytes { (o : Around) (a : Allocator)
            → result.now ≡ bytes_out (give_back_rest o a self.now) }
        ensures whole { (o : Around) (a : Allocator)
            → AreWhole (standing (give_back_rest o a self.now)) result.now }
    {
        self.giving.out()
    }

    /// The ask is answered.
    pub fn answer(&mut self, space: &mut Allocator, answer: &Answer) -> Option<SpaceEnd>
        requires suits { SuitsGiveBack space.old self.old }
        ensures rest { (o : Around) → after_space (give_back_rest o space.new self.new) o.rest
            (around_known o space.new) result
            ≡ answered (give_back_rest o space.old self.old) answer.now }
        ensures log { (o : Around) → MovesOn (give_back_rest o space.old self.old) answer.now
            (give_back_after o space.new self.new result) }
        ensures rules { (o : Around) (end : End)
            → give_back_after o space.new self.new result ≡ Ends end
            → IsGiveBackEnd (give_back_after o space.new self.new result) end }
        ensures suits { result ≡ None → SuitsGiveBack space.new self.new }
        ensures held { HoldsHand space.new }
        ensures same { IsSame space.old space.new }
        ensures claims { space.new.claims ≡ space.old.claims }
        ensures leases { extent_leases space.new ≡ extent_leases space.old }
        ensures hand { (o : Around) (found : Option (ℕ × List ℕ)) (bytes : List ℕ)
            → TellsGiven space.old.geometry self.old.giving found
            → bytes ≡ bytes_out (give_back_rest o space.old self.old)
            → hand_numbers space.new ≡ hand_answered space.old.geometry found
            (giving_ask self.old.giving) bytes answer.now (hand_numbers space.old) }
        ensures found { Fits (giving_ask self.old.giving) answer.now → result ≡ None
            → TellsGiven space.new.geometry self.new.giving
            (found_by (giving_ask self.old.giving) answer.now) }
    {
        match self.giving.answer(space, answer) {
            Some(SpaceEnd::Done) => {
                let given = self.giving.extent();
                self.go_on(space, given.0 + 1)
            }
            Some(SpaceEnd::Refused(reply)) => Some(SpaceEnd::Refused(reply)),
            None => None,
        }
    }

    // It goes on at the next extent, from one on, that has blocks in hand, or is over.
    fn go_on(&mut self, space: &Allocator, from: u32) -> Option<SpaceEnd>
        requires from { from ≤ space.now.geometry.extents }
        requires held { HoldsHand space.now }
        ensures rest { (o : Around) → after_space (give_back_rest o space.now self.new) o.rest
            (around_known o space.now) result
            ≡ give_from o space.now (uses_of self.old.giving.uses) from }
        ensures suits { result ≡ None → SuitsGiveBack space.now self.new }
        ensures tells { (g : Geometry) (found : Option (ℕ × List ℕ)) → result ≡ None
            → TellsGiven g self.new.giving found }
    {
        let Some(extent) = space.next_in_hand(from) else {
            return Some(SpaceEnd::Done);
        };
        self.giving.begin(extent, space);
        None
    }
}
