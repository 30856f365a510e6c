//! The rules of a reply to the command that an appliance is in.
use crate::Model;
use crate::content::holds;
use crate::effect::{is_attach, named, of_owner};
use crate::refusals::{ImageRefusals, Refusals};
use crate::replies::{OK, may_claim, number_of};
use crate::slot::SlotState;
use plx_base::{ApplianceNo, Payload, SlotNo};
use plx_commands::{Command, Reply, Report};

impl Model {
    ghost use Rattle.std.specs.Prelude.{◌≡◌, ◌<◌, ◌≤◌, ◌+◌, ◌↔◌, IsTrue, IfSome, IfNone, length};
    ghost use Rattle.plx_base.specs.Payload.{bytes_of};
    ghost use Rattle.plx_commands.specs.Facts.{of_images, refusals};
    ghost use Rattle.plx_commands.specs.Judge.{HasValue, IsByOwner};
    ghost use Rattle.plx_commands.specs.Model.{has_all, owns, owns_all};
    ghost use Rattle.plx_commands.specs.Replies.{may_claim, number_of};
    ghost use Rattle.plx_commands.specs.Reports.{IsReported};
    ghost use Rattle.plx_model.specs.Effects.{slot_list};
    ghost use Rattle.plx_model.specs.Shown.{listed_refusals, listed_images, model_of_tables, slot_of};

    // What is kept of the slot, if there is such a slot.
    fn state(&self, slot: u32) -> Option<&SlotState>
        ensures within { IfSome result (λ state. slot < length self.now.slots.items) }
        ensures shown { IfSome result (λ state. (model_of_tables self.now).slots slot
            ≡ slot_of state.now) }
        ensures past { IfNone result (length self.now.slots.items ≤ slot) }
    {
        let index = slot as usize;
        if self.slots.len() <= index {
            return None;
        }
        Some(&self.slots[index])
    }

    // Whether the appliance owns the image of the slot.
    pub(crate) fn is_owner(&self, slot: u32, appliance: u32) -> bool
        ensures owner { result ≡ owns ((model_of_tables self.now).slots slot).owner appliance }
        ensures within { IsTrue result → slot < length self.now.slots.items }
    {
        match self.state(slot) {
            Some(state) => state.is_owned_by(appliance),
            None => false,
        }
    }

    // Whether the appliance owns the image of the slot, if one is named.
    pub(crate) fn owns_all(&self, appliance: u32, slot: Option<u32>) -> bool
        ensures { result ≡ owns_all (model_of_tables self.now) appliance (slot_list slot) }
    {
        match slot {
            Some(slot) => self.is_owner(slot, appliance),
            None => true,
        }
    }

    // Whether the reply comes from the owner, where it is an Ok.
    pub(crate) fn is_by_owner(
        &self,
        appliance: ApplianceNo,
        command: &Command,
        reply: &Reply,
    ) -> bool
        ensures { IsTrue result ↔ IsByOwner
            (model_of_tables self.now) appliance.0 command.now reply.now }
    {
        number_of(reply) != OK || self.owns_all(appliance.0, of_owner(command))
    }

    // Whether the reply's value is the one that the model has, where it is an Ok.
    pub(crate) fn is_value(&self, command: &Command, reply: &Reply) -> bool
        ensures { IsTrue result ↔ (number_of reply.now ≡ 0
            → HasValue (model_of_tables self.now) command.now reply.now) }
    {
        number_of(reply) != OK || self.has_value(command, reply)
    }

    // Whether the reply is the command's Ok, with the value that the model has.
    fn has_value(&self, command: &Command, reply: &Reply) -> bool
        ensures { IsTrue result ↔ HasValue (model_of_tables self.now) command.now reply.now }
    {
        match (command, reply) {
            (Command::Attach { slot }, Reply::Attached { report }) => {
                self.is_reported(*slot, report)
            }
            (Command::Detach { .. }, Reply::Detached) => true,
            (Command::Create { slot, .. }, Reply::Created) => self.is_slot(*slot),
            (Command::Delete { slot }, Reply::Deleted) => self.is_slot(*slot),
            (Command::Read { slot, vblock }, Reply::Data { payload }) => {
                self.is_content(*slot, *vblock, payload)
            }
            (Command::Write { slot, .. }, Reply::Written { number }) => {
                self.is_next(*slot, *number)
            }
            (Command::Flush { slot }, Reply::Flushed { applied, .. }) => {
                self.is_last(*slot, *applied)
            }
            (Command::Reserve { .. }, Reply::Reserved) => true,
            (Command::Renew, Reply::Renewed) => true,
            (Command::Retire, Reply::Retired) => true,
            (Command::Reclaim, Reply::Reclaimed { .. }) => true,
            _ => false,
        }
    }

    fn is_slot(&self, slot: SlotNo) -> bool
        ensures { IsTrue result ↔ (slot.0 < length self.now.slots.items) }
    {
        (slot.0 as usize) < self.slots.len()
    }

    // Whether the report is of the image in the slot, or of its change.
    fn is_reported(&self, slot: SlotNo, report: &Report) -> bool
        ensures { IsTrue result ↔ ((slot.0 < length self.now.slots.items) × IsReported
            ((model_of_tables self.now).slots slot.0).image
            ((model_of_tables self.now).slots slot.0).change
            report.now) }
    {
        match self.state(slot.0) {
            Some(state) => state.is_reported(report),
            None => false,
        }
    }

    // Whether the bytes are those of the virtual block.
    fn is_content(&self, slot: SlotNo, vblock: u32, payload: &Payload) -> bool
        ensures { IsTrue result ↔ ((slot.0 < length self.now.slots.items)
            × (bytes_of payload.now
            ≡ ((model_of_tables self.now).slots slot.0).image.content vblock)) }
    {
        match self.state(slot.0) {
            Some(state) => holds(&state.content, vblock, payload),
            None => false,
        }
    }

    // Whether the number is that of the image's next write.
    fn is_next(&self, slot: SlotNo, number: u64) -> bool
        ensures { IsTrue result ↔ ((slot.0 < length self.now.slots.items)
            × (number ≡ ((model_of_tables self.now).slots slot.0).image.writes + 1)) }
    {
        match self.state(slot.0) {
            Some(state) => number.checked_sub(1) == Some(state.writes),
            None => false,
        }
    }

    // Whether the number is that of the image's last write.
    fn is_last(&self, slot: SlotNo, number: u64) -> bool
        ensures { IsTrue result ↔ ((slot.0 < length self.now.slots.items)
            × (number ≡ ((model_of_tables self.now).slots slot.0).image.writes)) }
    {
        match self.state(slot.0) {
            Some(state) => number == state.writes,
            None => false,
        }
    }

    // Which refusals' facts hold of the appliance's command.
    pub(crate) fn refusals(&self, appliance: ApplianceNo, command: &Command) -> Refusals
        requires { appliance.0 < length self.now.seats.items }
        ensures listed { listed_refusals result
            ≡ refusals (model_of_tables self.now) appliance.0 command.now }
        ensures claims { result.claims ≡ may_claim command.now }
    {
        let has = self.has_all(appliance, named(command));
        let attaches = is_attach(command);
        Refusals {
            attached: attaches && has,
            not_attached: !attaches && !has,
            images: self.of_images(command),
            claims: may_claim(command),
        }
    }

    // Whether the appliance has a session of the slot, if one is named.
    fn has_all(&self, appliance: ApplianceNo, slot: Option<u32>) -> bool
        requires { appliance.0 < length self.now.seats.items }
        ensures { result ≡ has_all ((model_of_tables self.now).sessions appliance.0)
            (slot_list slot) }
    {
        match slot {
            Some(slot) => {
                let seat = &self.seats[appliance.0 as usize];
                seat.has(slot)
            }
            None => true,
        }
    }

    // Which refusals' facts hold of the image in the slot that the command names.
    fn of_images(&self, command: &Command) -> ImageRefusals
        ensures { listed_images result ≡ of_images (model_of_tables self.now) command.now }
    {
        let Some(slot) = named(command) else {
            return ImageRefusals::none();
        };
        match self.state(slot) {
            Some(state) => state.of_command(command),
            None => ImageRefusals {
                no_image: is_attach(command),
                exists: false,
                range: None,
                worn: None,
            },
        }
    }
}
