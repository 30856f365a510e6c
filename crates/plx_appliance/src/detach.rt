//! A detach gives the lease back.
ghost use Rattle.std.specs.Prelude.{◌≡◌, Some};
ghost use Rattle.plx_base.specs.declared.lease.LeaseRecord.TheVariants.{Free};
ghost use Rattle.plx_gate.specs.Leases.{lease_bytes};

use crate::lease::Leases;
use crate::sessions::Sessions;
use plx_base::{Block, LeaseRecord, WriteKind};
use plx_commands::Reply;
use plx_disk::{Answer, Ask};
use plx_lease::spell_lease;
use plx_session::Leased;

/// The release of an image's lease, with the block that spells a free one.
#[derive(Drop)]
pub struct Detach {
    pub image: Leased,
    pub spelled: Block,
    ghost free: { spelled ≡ lease_bytes Free },
}

impl Detach {
    ghost use Rattle.std.specs.Prelude.{ℕ, None, ◌<◌};
    ghost use Rattle.plx_commands.specs.Places.{at};
    ghost use Rattle.plx_rules.specs.Process.{answered, standing, bytes_out};
    ghost use Rattle.plx_rules.specs.Commands.{detach_process};
    ghost use Rattle.plx_rules.specs.Holds.{Nothing};
    ghost use Rattle.plx_rules.specs.Session.{Known};
    ghost use Rattle.plx_rules.specs.Session.{Session as KnownSession};
    ghost use Rattle.plx_alloc.specs.Asking.{IsOnDevice};
    ghost use Rattle.plx_rules.specs.Machines.{AreWhole};
    ghost use Rattle.plx_session.specs.Ending.{process_after};
    ghost use Rattle.plx_session.specs.Giving.{rules_setting};
    ghost use Rattle.plx_appliance.specs.Kept.{known_by};
    ghost use Rattle.plx_appliance.specs.Tokens.{image_leases};
    ghost use Rattle.plx_appliance.specs.Detaches.{detach_rest};
    ghost use Rattle.plx_appliance.specs.Releasing.{image_leases_after_release};

    /// The detach begins, with a block for the lease.
    pub fn enter(image: Leased, spelled: Block) -> Detach
        ensures process { (known : Known) (session : KnownSession) →
            detach_rest known result ≡ detach_process
            (rules_setting image.setting) known image.slot.0 session image.until }
        ensures image { result.image ≡ image }
    {
        let mut spelled = spelled;
        spell_lease(&LeaseRecord::Free, &mut spelled);
        Detach { image, spelled }
    }

    /// The ask that stands.
    pub fn ask(&self) -> Ask
        ensures ask { (known : Known) → Some result ≡ standing (detach_rest known self.now) }
        ensures within { IsOnDevice self.now.image.setting.geometry result }
    {
        Ask::Write {
            kind: WriteKind::Release,
            block: self.image.lease_block(),
            guard: self.image.until,
        }
    }

    /// The bytes of the write that is asked for.
    pub fn out(&self) -> &[u8]
        ensures bytes { (known : Known) → result.now ≡ bytes_out (detach_rest known self.now) }
        ensures whole { (known : Known) →
            AreWhole (standing (detach_rest known self.now)) result.now }
    {
        self.spelled.as_slice()
    }

    /// The ask is answered.
    pub fn answer(
        &mut self,
        sessions: &mut Sessions,
        leases: &mut Leases,
        answer: &Answer,
    ) -> Option<Reply>
        requires count { sessions.old.count ≡ self.old.image.setting.geometry.images }
        requires leased { leases.old.count ≡ self.old.image.setting.geometry.images }
        ensures rest { (claims : ℕ) → process_after
            (detach_rest (known_by sessions.new claims) self.new)
            (known_by sessions.new claims) result
            ≡ answered (detach_rest (known_by sessions.old claims) self.old) answer.now }
        ensures leases { image_leases leases.new.leases.items
            ≡ image_leases_after_release answer.now self.old.image.slot.0
            (image_leases leases.old.leases.items) }
        ensures image { self.new.image ≡ self.old.image }
        ensures count { sessions.new.count ≡ sessions.old.count }
        ensures slots { sessions.new.slots ≡ sessions.old.slots }
        ensures sessions { result ≡ None → sessions.new ≡ sessions.old }
        ensures leased { leases.new.count ≡ leases.old.count }
    {
        match answer {
            Answer::Done => {
                sessions.end(self.image.slot);
                if let Some(held) = leases.take(self.image.slot) {
                    held.released();
                }
                Some(Reply::Detached)
            }
            Answer::Fault => Some(Reply::WriteFault {
                block: self.image.lease_block(),
            }),
            Answer::Missed(reading) => Some(self.image.lost(*reading)),
            _ => None,
        }
    }
}
