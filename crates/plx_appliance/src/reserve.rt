//! A reserve takes fresh blocks, until so many are in hand.
ghost use Rattle.std.specs.Prelude.{◌≡◌, Some, None};
ghost use Rattle.plx_alloc.specs.Ending.{space_end};
ghost use Rattle.plx_rules.specs.Ends.{ends};
ghost use Rattle.plx_rules.specs.Session.{Known, known_after};

use plx_alloc::{Allocator, Reserve as Take, SpaceEnd};
use plx_commands::Reply;
use plx_disk::{Answer, Ask};
use plx_session::Setting;

/// A reserve with the machine of its take.
#[derive(Drop)]
pub struct Reserve {
    pub setting: Setting,
    pub work: Take,
}

impl Reserve {
    ghost use Rattle.std.specs.Prelude.{ℕ, Option};
    ghost use Rattle.plx_alloc.specs.Asking.{IsOnDevice, reserve_spares};
    ghost use Rattle.plx_alloc.specs.Suiting.{SuitsReserve};
    ghost use Rattle.plx_alloc.specs.declared.allocator.Allocator.{Allocator};
    ghost use Rattle.plx_alloc.specs.Tables.{HoldsHand, IsSame};
    ghost use Rattle.plx_rules.specs.Holds.{Hold};
    ghost use Rattle.plx_rules.specs.Machines.{AreWhole, IsTimely};
    ghost use Rattle.plx_rules.specs.Process.{answered, bytes_out, standing};
    ghost use Rattle.plx_rules.specs.Session.{Session};
    ghost use Rattle.plx_session.specs.Ending.{process_after};
    ghost use Rattle.plx_appliance.specs.Lent.{Lent, lends};
    ghost use Rattle.plx_appliance.specs.Reserves.{ReserveMoves, reserve_work_rest};

    /// The ask that stands.
    pub fn ask(&self) -> Ask
        ensures ask { (lent : Lent) → Some result ≡ standing (reserve_work_rest lent self.now) }
        ensures spare { (space : Allocator) → SuitsReserve space self.now.work →
            reserve_spares self.now.work.at space.geometry self.now.work result }
        ensures within { (space : Allocator) → SuitsReserve space self.now.work →
            space.geometry ≡ self.now.setting.geometry →
            IsOnDevice self.now.setting.geometry result }
    {
        self.work.ask()
    }

    /// The bytes of the write that is asked for.
    pub fn out(&self) -> &[u8]
        ensures bytes { (lent : Lent) → result.now ≡ bytes_out (reserve_work_rest lent self.now) }
        ensures whole { (lent : Lent) → AreWhole
            (standing (reserve_work_rest lent self.now)) result.now }
    {
        self.work.out()
    }

    /// The ask is answered.
    pub fn answer(&mut self, space: &mut Allocator, answer: &Answer) -> Option<Reply>
        requires suits { SuitsReserve space.old self.old.work }
        requires timely { IsTimely answer.now }
        ensures rest { (sessions : ℕ → Option Session) (leases : ℕ → Hold) →
            process_after (reserve_work_rest (lends sessions leases space.new) self.new)
            (lends sessions leases space.new).known result
            ≡ answered (reserve_work_rest (lends sessions leases space.old) self.old) answer.now }
        ensures setting { self.new.setting ≡ self.old.setting }
        ensures suits { result ≡ None → SuitsReserve space.new self.new.work }
        ensures held { HoldsHand space.new }
        ensures same { IsSame space.old space.new }
        ensures moves { (sessions : ℕ → Option Session) (leases : ℕ → Hold) →
            ReserveMoves self.old self.new answer.now (lends sessions leases space.old)
            (lends sessions leases space.new) result }
    {
        match self.work.answer(space, answer) {
            None => None,
            Some(end) => Some(reserve_reply(end)),
        }
    }
}

/// The reply to a reserve whose take has ended.
pub fn reserve_reply(end: SpaceEnd) -> Reply
    ensures { (known : Known) → ends result (known_after result known)
        ≡ space_end (ends Reply.Reserved known) known end }
{
    match end {
        SpaceEnd::Done => Reply::Reserved,
        SpaceEnd::Refused(reply) => reply,
    }
}
