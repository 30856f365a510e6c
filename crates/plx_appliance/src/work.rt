//! The command that runs, after its first reading of the clock.
ghost use Rattle.std.specs.Prelude.{◌≡◌, Some, None};

use crate::attach::Attach;
use crate::detach::Detach;
use crate::holdings::Holdings;
use crate::renew::Renew;
use crate::reserve::Reserve;
use crate::retire::Retire;
use plx_commands::Reply;
use plx_disk::{Answer, Ask};
use plx_session::ImageWork;

/// The machine of the command that runs.
#[derive(Drop)]
pub enum Work {
    Attach(Attach),
    Detach(Detach),
    Image(ImageWork),
    Renew(Renew),
    Reserve(Reserve),
    Retire(Retire),
}

impl Work {
    ghost use Rattle.std.specs.Prelude.{ℕ, List, Option};
    ghost use Rattle.plx_alloc.specs.declared.allocator.Allocator.{Allocator};
    ghost use Rattle.plx_rules.specs.Process.{answered, standing, bytes_out};
    ghost use Rattle.plx_rules.specs.Holds.{Hold};
    ghost use Rattle.plx_rules.specs.Machines.{AreWhole, IsTimely};
    ghost use Rattle.plx_appliance.specs.Lent.{Lent, lent_of};
    ghost use Rattle.plx_alloc.specs.Asking.{IsOnDevice};
    ghost use Rattle.plx_appliance.specs.Works.{Inside, Moves, Spares, work_rest, work_setting, work_slots, work_suits};
    ghost use Rattle.plx_session.specs.Ending.{process_after};
    ghost use Rattle.plx_appliance.specs.Kept.{known_of};

    /// The ask that stands.
    pub fn ask(&self) -> Ask
        requires { work_slots self.now ≡ (work_setting self.now).geometry.slots }
        ensures ask { (lent : Lent) → Some result ≡ standing (work_rest lent self.now) }
        ensures spare { Spares self.now result }
        ensures within { (space : Allocator) (holds : ℕ → Hold) (sample : Option ℕ)
            (found : Option (ℕ × List ℕ)) → work_suits space self.now →
            space.geometry ≡ (work_setting self.now).geometry → Inside self.now holds sample found →
            IsOnDevice (work_setting self.now).geometry result }
    {
        match self {
            Work::Attach(attach) => attach.ask(),
            Work::Detach(detach) => detach.ask(),
            Work::Image(image) => image.ask(),
            Work::Renew(renew) => renew.ask(),
            Work::Reserve(reserve) => reserve.ask(),
            Work::Retire(retire) => retire.ask(),
        }
    }

    /// The bytes of the write that is asked for.
    pub fn out(&self) -> &[u8]
        ensures bytes { (lent : Lent) → result.now ≡ bytes_out (work_rest lent self.now) }
        ensures whole { (lent : Lent) → AreWhole (standing (work_rest lent self.now)) result.now }
    {
        match self {
            Work::Attach(attach) => attach.out(),
            Work::Detach(detach) => detach.out(),
            Work::Image(image) => image.out(),
            Work::Renew(renew) => renew.out(),
            Work::Reserve(reserve) => reserve.out(),
            Work::Retire(retire) => retire.out(),
        }
    }

    /// The ask is answered.
    pub fn answer(&mut self, holdings: &mut Holdings, answer: &Answer) -> Option<Reply>
        requires own { work_slots self.old ≡ (work_setting self.old).geometry.slots }
        requires setting { work_setting self.old ≡ holdings.old.setting }
        requires suits { work_suits holdings.old.space self.old }
        requires timely { IsTimely answer.now }
        ensures rest { process_after (work_rest (lent_of holdings.new) self.new)
            (known_of holdings.new) result
            ≡ answered (work_rest (lent_of holdings.old) self.old) answer.now }
        ensures own { result ≡ None → work_slots self.new ≡ work_slots self.old }
        ensures kept { result ≡ None → work_setting self.new ≡ work_setting self.old }
        ensures setting { holdings.new.setting ≡ holdings.old.setting }
        ensures sessions { result ≡ None → (known_of holdings.new).sessions
            ≡ (known_of holdings.old).sessions }
        ensures suits { result ≡ None → work_suits holdings.new.space self.new }
        ensures moves { Moves self.old self.new answer.now (lent_of holdings.old)
            (lent_of holdings.new) result }
    {
        match self {
            Work::Attach(attach) => attach.answer(
                &mut holdings.sessions,
                &mut holdings.leases,
                answer,
            ),
            Work::Detach(detach) => detach.answer(
                &mut holdings.sessions,
                &mut holdings.leases,
                answer,
            ),
            Work::Image(image) => holdings.sessions.answer(image, answer),
            Work::Renew(renew) => renew.answer(holdings, answer),
            Work::Reserve(reserve) => reserve.answer(&mut holdings.space, answer),
            Work::Retire(retire) => retire.answer(holdings, answer),
        }
    }
}
