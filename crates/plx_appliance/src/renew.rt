//! A renew writes each lease that is held again, up to a later moment.
ghost use Rattle.std.specs.Prelude.{◌≡◌, Some, None};
ghost use Rattle.plx_rules.specs.Process.{bytes_out};
ghost use Rattle.plx_lease.specs.Renewing.{renewal_rest};

use crate::holdings::Holdings;
use plx_base::Block;
use plx_commands::Reply;
use plx_disk::{Answer, Ask};
use plx_lease::{LeaseRenewal, RenewalEnd};
use plx_session::Setting;

/// A renew with the renewal that asks, the bytes of its write, and those that are left, of which the
/// last one is next.
#[derive(Drop)]
pub struct Renew {
    pub setting: Setting,
    pub renewal: LeaseRenewal,
    pub left: Vec<LeaseRenewal>,
    pub out: Block,
    ghost spelled: { out ≡ bytes_out (renewal_rest renewal) },
}

impl Renew {
    ghost use Rattle.std.specs.Prelude.{ℕ, [], ◌∷◌, ◌++◌};
    ghost use Rattle.plx_commands.specs.declared.reply.Reply.{Reply};
    ghost use Rattle.plx_rules.specs.Ends.{ends};
    ghost use Rattle.plx_rules.specs.Holds.{Hold};
    ghost use Rattle.plx_rules.specs.Machines.{AreWhole};
    ghost use Rattle.plx_rules.specs.Process.{answered, standing};
    ghost use Rattle.plx_rules.specs.Session.{Known};
    ghost use Rattle.plx_alloc.specs.Asking.{IsOnDevice};
    ghost use Rattle.plx_session.specs.Ending.{process_after};
    ghost use Rattle.plx_session.specs.Giving.{rules_setting};
    ghost use Rattle.plx_appliance.specs.Kept.{known_of};
    ghost use Rattle.plx_appliance.specs.Lent.{lent_of};
    ghost use Rattle.plx_appliance.specs.Renews.{IsRenewing, RenewMoves, renew_rest, renewals_then};

    /// The ask that stands.
    pub fn ask(&self) -> Ask
        ensures ask { (known : Known) → Some result ≡ standing (renew_rest known self.now) }
        ensures within { (leases : ℕ → Hold) → IsRenewing self.now leases →
            IsOnDevice self.now.setting.geometry result }
    {
        self.renewal.ask()
    }

    /// The bytes of the write that is asked for.
    pub fn out(&self) -> &[u8]
        ensures bytes { (known : Known) → result.now ≡ bytes_out (renew_rest known self.now) }
        ensures whole { (known : Known) →
            AreWhole (standing (renew_rest known self.now)) result.now }
    {
        self.out.as_slice()
    }

    /// The ask is answered.
    pub fn answer(&mut self, holdings: &mut Holdings, answer: &Answer) -> Option<Reply>
        ensures rest { process_after (renew_rest (known_of holdings.new) self.new)
            (known_of holdings.new) result
            ≡ answered (renew_rest (known_of holdings.old) self.old) answer.now }
        ensures setting { self.new.setting ≡ self.old.setting }
        ensures kept { holdings.new.setting ≡ holdings.old.setting }
        ensures known { known_of holdings.new ≡ known_of holdings.old }
        ensures moves { RenewMoves self.old self.new answer.now (lent_of holdings.old)
            (lent_of holdings.new) result }
    {
        match self.renewal.answer(answer) {
            None => None,
            Some(RenewalEnd::Renewed) => {
                let lease = self.setting.lease_name(self.renewal.number());
                holdings.lengthen(lease, self.renewal.later());
                self.go_on()
            }
            Some(RenewalEnd::Lost { due, reading }) => Some(Reply::Lost {
                lease: self.setting.lease_name(due.lease),
                until: due.until,
                reading,
            }),
            Some(RenewalEnd::WriteFault) => Some(Reply::WriteFault {
                block: self.renewal.block(),
            }),
        }
    }

    // To the next renewal, if one is left.
    fn go_on(&mut self) -> Option<Reply>
        ensures rest { (known : Known) → process_after (renew_rest known self.new) known result
            ≡ renewals_then (rules_setting self.old.setting) known self.old.left.items
            (ends Reply.Renewed known) }
        ensures setting { self.new.setting ≡ self.old.setting }
        ensures next { result ≡ None → self.old.left.items ≡ self.new.left.items ++
            self.new.renewal ∷ [] }
    {
        let Some(next) = self.left.pop() else {
            return Some(Reply::Renewed);
        };
        next.spell(&mut self.out);
        self.renewal = next;
        None
    }
}
