//! The judge of a trace.
use crate::Model;
use crate::replies::is_listed;
use plx_base::ApplianceNo;
use plx_commands::{Command, Entry, Reply};
use thiserror::Error;

/// Why an entry isn't taken.
#[derive(Debug, Drop, Error)]
pub enum JudgeError {
    /// The entry breaks this rule, and no rule of a lower number.
    #[error("not permitted by rule {rule}")]
    NotPermitted { rule: u8 },
    /// The entry keeps all rules, and there is no memory for what it changes.
    #[error("out of memory")]
    NoMemory,
}

impl Model {
    ghost use Rattle.std.specs.Prelude.{◌≡◌, ◌<◌, ◌↔◌, IsTrue, OnOk, OnErr, IfErr, IfSome, IfNone, Some, length};
    ghost use Rattle.plx_model.specs.Cause.{IsJudgeCause, IsTaken};
    ghost use Rattle.plx_commands.specs.Judge.{Accepts, IsLeastBroken};
    ghost use Rattle.plx_commands.specs.Moves.{model_after};
    ghost use Rattle.plx_model.specs.Shown.{model_of_tables};

    /// Takes the next entry of a trace, where it keeps all rules. Else the model stays as it is.
    #[tactic(auto, using(crate::proofs::Numbered::accepted_keeps))]
    pub fn judge(&mut self, entry: &Entry) -> Result<(), JudgeError>
        ensures accepted { OnOk result (Accepts (model_of_tables self.old) entry.now) }
        ensures moved { OnOk result (model_of_tables self.new
            ≡ model_after (model_of_tables self.old) entry.now) }
        ensures cause { IfErr result (λ error. IsJudgeCause error
            (model_of_tables self.old) entry.now) }
        ensures kept { OnErr result (model_of_tables self.new ≡ model_of_tables self.old) }
        ensures taken { Accepts (model_of_tables self.old) entry.now → IsTaken result }
    {
        if let Some(rule) = self.broken(entry) {
            return Err(JudgeError::NotPermitted { rule });
        }
        match self.follow(entry) {
            Ok(()) => Ok(()),
            Err(_) => Err(JudgeError::NoMemory),
        }
    }

    // The least rule that the entry breaks.
    fn broken(&self, entry: &Entry) -> Option<u8>
        ensures none { IfNone result (Accepts (model_of_tables self.now) entry.now) }
        ensures least { IfSome result (λ rule. IsLeastBroken
            (model_of_tables self.now) entry.now rule) }
    {
        match entry {
            Entry::Start { appliance, command } => self.broken_by_start(*appliance, command),
            Entry::Reply { appliance, reply } => self.broken_by_reply(*appliance, reply),
            Entry::Crash { appliance } => self.broken_by_crash(*appliance),
        }
    }

    fn is_known(&self, appliance: ApplianceNo) -> bool
        ensures { IsTrue result ↔ (appliance.0 < length self.now.seats.items) }
    {
        (appliance.0 as usize) < self.seats.len()
    }

    fn broken_by_start(&self, appliance: ApplianceNo, command: &Command) -> Option<u8>
        ensures none { IfNone result (Accepts (model_of_tables self.now)
            (Entry.Start appliance command.now)) }
        ensures least { IfSome result (λ rule. IsLeastBroken (model_of_tables self.now)
            (Entry.Start appliance command.now) rule) }
    {
        if !self.is_known(appliance) {
            return Some(1);
        }
        let seat = &self.seats[appliance.0 as usize];
        match &seat.running {
            Some(_) => Some(2),
            None => None,
        }
    }

    fn broken_by_crash(&self, appliance: ApplianceNo) -> Option<u8>
        ensures none { IfNone result (Accepts (model_of_tables self.now) (Entry.Crash appliance)) }
        ensures least { IfSome result (λ rule. IsLeastBroken (model_of_tables self.now)
            (Entry.Crash appliance) rule) }
    {
        if !self.is_known(appliance) {
            return Some(1);
        }
        None
    }

    fn broken_by_reply(&self, appliance: ApplianceNo, reply: &Reply) -> Option<u8>
        ensures none { IfNone result (Accepts (model_of_tables self.now)
            (Entry.Reply appliance reply.now)) }
        ensures least { IfSome result (λ rule. IsLeastBroken (model_of_tables self.now)
            (Entry.Reply appliance reply.now) rule) }
    {
        if !self.is_known(appliance) {
            return Some(1);
        }
        let seat = &self.seats[appliance.0 as usize];
        match &seat.running {
            Some(command) => self.broken_in(appliance, command, reply),
            None => Some(3),
        }
    }

    // The least rule that a reply to this command breaks.
    fn broken_in(&self, appliance: ApplianceNo, command: &Command, reply: &Reply) -> Option<u8>
        requires known { appliance.0 < length self.now.seats.items }
        requires running { (model_of_tables self.now).running appliance.0 ≡ Some command.now }
        ensures none { IfNone result (Accepts (model_of_tables self.now)
            (Entry.Reply appliance reply.now)) }
        ensures least { IfSome result (λ rule. IsLeastBroken (model_of_tables self.now)
            (Entry.Reply appliance reply.now) rule) }
    {
        if !is_listed(command, reply) {
            return Some(4);
        }
        if !self.is_by_owner(appliance, command, reply) {
            return Some(5);
        }
        if !self.is_value(command, reply) {
            return Some(6);
        }
        let refusals = self.refusals(appliance, command);
        if !refusals.found(reply) {
            return Some(7);
        }
        if !refusals.allow(reply) {
            return Some(8);
        }
        None
    }
}
