//! Slots that an appliance owns no longer.
ghost use Rattle.std.specs.Prelude.{◌≡◌, map};
ghost use Rattle.plx_commands.specs.Moves.{slot_without_owner};
ghost use Rattle.plx_model.specs.Shown.{slot_of};

use crate::slot::SlotState;

// The appliance owns none of the slots.
pub fn disown_all(slots: &mut [SlotState], appliance: u32)
    ensures { map slot_of slots.new ≡ map (λ slot. slot_without_owner slot appliance)
        (map slot_of slots.old) }
{
    for slot in slots.iter_mut() {
        slot.disown(appliance);
    }
}
