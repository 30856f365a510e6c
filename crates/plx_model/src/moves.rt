//! How an entry moves the model.
use crate::Model;
use crate::disown::disown_all;
use crate::effect::{Effect, named};
use crate::replies::{ends_sessions, is_own};
use plx_base::{ApplianceNo, NoMemory};
use plx_commands::{Command, Entry, Reply, Report};

impl Model {
    ghost use Rattle.std.specs.Prelude.{◌≡◌, ◌<◌, IsTrue, OnOk, OnErr, length, true, None, Some};
    ghost use Rattle.plx_commands.specs.Judge.{Accepts};
    ghost use Rattle.plx_commands.specs.Model.{owns};
    ghost use Rattle.plx_commands.specs.Moves.{begins_change, done_at, model_after_attach, model_without_sessions, slot_without_owner, model_after_detach, model_after, refused_at, model_at_rest, started_at};
    ghost use Rattle.plx_commands.specs.Places.{at};
    ghost use Rattle.plx_commands.specs.Replies.{ends_sessions, number_of};
    ghost use Rattle.plx_commands.specs.Slots.{changed_slot};
    ghost use Rattle.plx_model.specs.Effects.{IsAtHand, model_after_effect, model_after_end};
    ghost use Rattle.plx_model.specs.Shown.{model_of_tables};

    // The model moves by an entry that it accepts.
    pub(crate) fn follow(&mut self, entry: &Entry) -> Result<(), NoMemory>
        requires { Accepts (model_of_tables self.old) entry.now }
        ensures ok { OnOk result (model_of_tables self.new
            ≡ model_after (model_of_tables self.old) entry.now) }
        ensures err { OnErr result (model_of_tables self.new ≡ model_of_tables self.old) }
    {
        match entry {
            Entry::Start { appliance, command } => self.start(*appliance, command),
            Entry::Reply { appliance, reply } => self.reply(*appliance, reply),
            Entry::Crash { appliance } => {
                self.forget(*appliance);
                Ok(())
            }
        }
    }

    // The appliance is in the command, and the change that it makes is under way.
    fn start(&mut self, appliance: ApplianceNo, command: &Command) -> Result<(), NoMemory>
        requires { appliance.0 < length self.old.seats.items }
        ensures ok { OnOk result (model_of_tables self.new
            ≡ model_after (model_of_tables self.old) (Entry.Start appliance command.now)) }
        ensures err { OnErr result (model_of_tables self.new ≡ model_of_tables self.old) }
    {
        let copied = command.copy(self.alloc)?;
        self.begin_change(appliance, command)?;
        self.run(appliance, Some(copied));
        Ok(())
    }

    fn begin_change(&mut self, appliance: ApplianceNo, command: &Command) -> Result<(), NoMemory>
        requires { appliance.0 < length self.old.seats.items }
        ensures ok { OnOk result (model_of_tables self.new
            ≡ record (model_of_tables self.old) {
              slots = started_at
                  (model_of_tables self.old) appliance.0 command.now (changed_slot command.now);
            }) }
        ensures err { OnErr result (model_of_tables self.new ≡ model_of_tables self.old) }
        ensures seats { length self.new.seats.items ≡ length self.old.seats.items }
    {
        let Some(slot) = Effect::of(command).changed() else {
            return Ok(());
        };
        if !self.begins_change(appliance, command) {
            return Ok(());
        }
        let alloc = self.alloc;
        let state = &mut self.slots[slot as usize];
        state.begin(alloc, command)
    }

    // Whether the command is the owner's, and has no refusal whose fact holds.
    fn begins_change(&self, appliance: ApplianceNo, command: &Command) -> bool
        requires { appliance.0 < length self.now.seats.items }
        ensures { result ≡ begins_change (model_of_tables self.now) appliance.0 command.now }
    {
        if !self.owns_all(appliance.0, named(command)) {
            return false;
        }
        let refusals = self.refusals(appliance, command);
        refusals.is_empty()
    }

    // The appliance is in this command, or in none.
    fn run(&mut self, appliance: ApplianceNo, command: Option<Command>)
        requires { appliance.0 < length self.old.seats.items }
        ensures { model_of_tables self.new ≡ record (model_of_tables self.old) {
          running = at
              (model_of_tables self.old).running appliance.0 command;
        } }
    {
        let seat = &mut self.seats[appliance.0 as usize];
        seat.run(command);
    }

    // The model moves by a reply that it accepts.
    fn reply(&mut self, appliance: ApplianceNo, reply: &Reply) -> Result<(), NoMemory>
        requires { Accepts (model_of_tables self.old) (Entry.Reply appliance reply.now) }
        ensures ok { OnOk result (model_of_tables self.new
            ≡ model_after (model_of_tables self.old) (Entry.Reply appliance reply.now)) }
        ensures err { OnErr result (model_of_tables self.new ≡ model_of_tables self.old) }
    {
        let seat = &self.seats[appliance.0 as usize];
        let Some(command) = &seat.running else {
            return Ok(());
        };
        let effect = Effect::of(command);
        let own = is_own(command, reply);
        self.end(appliance, effect, own, reply)
    }

    // A command of this effect ends with this reply, its own Ok or another one.
    fn end(
        &mut self,
        appliance: ApplianceNo,
        effect: Effect,
        own: bool,
        reply: &Reply,
    ) -> Result<(), NoMemory>
        requires known { appliance.0 < length self.old.seats.items }
        requires at_hand { own ≡ true → IsAtHand (model_of_tables self.old) effect }
        ensures ok { OnOk result (model_of_tables self.new
            ≡ model_after_end (model_of_tables self.old) appliance.0 effect own
            (ends_sessions (number_of reply.now))
            reply.now) }
        ensures err { OnErr result (model_of_tables self.new ≡ model_of_tables self.old) }
    {
        if own {
            return self.bring(appliance, effect, reply);
        }
        if ends_sessions(reply) {
            self.forget(appliance);
            return Ok(());
        }
        self.refuse(appliance, effect.changed());
        Ok(())
    }

    // The effect comes with this Ok.
    fn bring(
        &mut self,
        appliance: ApplianceNo,
        effect: Effect,
        reply: &Reply,
    ) -> Result<(), NoMemory>
        requires known { appliance.0 < length self.old.seats.items }
        requires at_hand { IsAtHand (model_of_tables self.old) effect }
        ensures ok { OnOk result (model_of_tables self.new
            ≡ model_after_effect (model_of_tables self.old) appliance.0 effect reply.now) }
        ensures err { OnErr result (model_of_tables self.new ≡ model_of_tables self.old) }
    {
        match (effect, reply) {
            (Effect::Enter(slot), Reply::Attached { report }) => {
                self.enter(appliance, slot, report)
            }
            (Effect::Leave(slot), _) => {
                self.leave(appliance, slot);
                Ok(())
            }
            (Effect::Change(slot), _) => self.make(appliance, slot),
            (Effect::Enter(_) | Effect::Rest, _) => {
                self.run(appliance, None);
                Ok(())
            }
        }
    }

    // The appliance has a session of the slot and owns it.
    fn enter(&mut self, appliance: ApplianceNo, slot: u32, report: &Report) -> Result<(), NoMemory>
        requires known { appliance.0 < length self.old.seats.items }
        requires within { slot < length self.old.slots.items }
        ensures ok { OnOk result (model_of_tables self.new
            ≡ model_after_attach (model_of_tables self.old) appliance.0 slot report.now) }
        ensures err { OnErr result (model_of_tables self.new ≡ model_of_tables self.old) }
    {
        let alloc = self.alloc;
        let state = &mut self.slots[slot as usize];
        state.attach(alloc, report, appliance.0)?;
        let seat = &mut self.seats[appliance.0 as usize];
        seat.open(slot);
        seat.run(None);
        Ok(())
    }

    // The appliance's session of the slot has ended, and it owns it no longer.
    fn leave(&mut self, appliance: ApplianceNo, slot: u32)
        requires { appliance.0 < length self.old.seats.items }
        ensures { model_of_tables self.new
            ≡ model_after_detach (model_of_tables self.old) appliance.0 slot }
    {
        self.disown(appliance, slot);
        let seat = &mut self.seats[appliance.0 as usize];
        seat.close(slot);
        seat.run(None);
    }

    fn disown(&mut self, appliance: ApplianceNo, slot: u32)
        ensures moved { model_of_tables self.new ≡ record
            (model_of_tables self.old) {
              slots = at (model_of_tables self.old).slots slot
                  (slot_without_owner ((model_of_tables self.old).slots slot) appliance.0);
            } }
        ensures seats { length self.new.seats.items ≡ length self.old.seats.items }
    {
        let index = slot as usize;
        if self.slots.len() <= index {
            return;
        }
        let state = &mut self.slots[index];
        state.disown(appliance.0);
    }

    // The change under way is made.
    fn make(&mut self, appliance: ApplianceNo, slot: u32) -> Result<(), NoMemory>
        requires known { appliance.0 < length self.old.seats.items }
        requires within { slot < length self.old.slots.items }
        ensures ok { OnOk result (model_of_tables self.new
            ≡ model_at_rest (model_of_tables self.old) appliance.0
            (done_at (model_of_tables self.old) (Some slot))
            ((model_of_tables self.old).sessions appliance.0)) }
        ensures err { OnErr result (model_of_tables self.new ≡ model_of_tables self.old) }
    {
        let alloc = self.alloc;
        let state = &mut self.slots[slot as usize];
        state.make(alloc)?;
        let seat = &mut self.seats[appliance.0 as usize];
        seat.run(None);
        Ok(())
    }

    // The command is refused, and a change of its own is given up.
    fn refuse(&mut self, appliance: ApplianceNo, slot: Option<u32>)
        requires { appliance.0 < length self.old.seats.items }
        ensures { model_of_tables self.new ≡ model_at_rest (model_of_tables self.old) appliance.0
            (refused_at (model_of_tables self.old) appliance.0 slot)
            ((model_of_tables self.old).sessions appliance.0) }
    {
        self.give_up(appliance, slot);
        self.run(appliance, None);
    }

    fn give_up(&mut self, appliance: ApplianceNo, slot: Option<u32>)
        ensures moved { model_of_tables self.new
            ≡ record (model_of_tables self.old) {
              slots = refused_at (model_of_tables self.old) appliance.0 slot;
            } }
        ensures seats { length self.new.seats.items ≡ length self.old.seats.items }
    {
        let Some(slot) = slot else {
            return;
        };
        if !self.is_owner(slot, appliance.0) {
            return;
        }
        let state = &mut self.slots[slot as usize];
        state.give_up();
    }

    // The appliance owns nothing, has no session and is in no command.
    fn forget(&mut self, appliance: ApplianceNo)
        requires { appliance.0 < length self.old.seats.items }
        ensures { model_of_tables self.new ≡ model_without_sessions
            (model_of_tables self.old) appliance.0 }
    {
        disown_all(&mut self.slots, appliance.0);
        let seat = &mut self.seats[appliance.0 as usize];
        seat.forget();
    }
}
