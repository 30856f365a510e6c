//! Which slots a command names, and what its own Ok does to them.
ghost use Rattle.std.specs.Prelude.{◌≡◌};
ghost use Rattle.plx_commands.specs.Judge.{of_owner};
ghost use Rattle.plx_commands.specs.Slots.{changed_slot, named_slots};
ghost use Rattle.plx_model.specs.Effects.{changed_by, effect_of, is_attach, slot_list};

use plx_commands::Command;

/// What a command's own Ok does to the slot that the command names.
#[derive(Clone, Copy)]
pub enum Effect {
    /// A session of the slot begins.
    Enter(u32),
    /// The session of the slot ends.
    Leave(u32),
    /// The change of the slot's image is made.
    Change(u32),
    /// Nothing.
    Rest,
}

impl Effect {
    // The effect of the command.
    pub fn of(command: &Command) -> Effect
        ensures { result ≡ effect_of command.now }
    {
        match command {
            Command::Attach { slot } => Effect::Enter(slot.0),
            Command::Detach { slot } => Effect::Leave(slot.0),
            Command::Create { slot, .. } => Effect::Change(slot.0),
            Command::Delete { slot } => Effect::Change(slot.0),
            Command::Read { .. } => Effect::Rest,
            Command::Write { slot, .. } => Effect::Change(slot.0),
            Command::Flush { .. } => Effect::Rest,
            Command::Reserve { .. } => Effect::Rest,
            Command::Renew => Effect::Rest,
            Command::Retire => Effect::Rest,
            Command::Reclaim => Effect::Rest,
        }
    }

    // The slot whose image is changed.
    pub fn changed(self) -> Option<u32>
        ensures { result ≡ changed_by self }
    {
        match self {
            Effect::Change(slot) => Some(slot),
            Effect::Enter(_) => None,
            Effect::Leave(_) => None,
            Effect::Rest => None,
        }
    }
}

// The slot that the command names.
pub fn named(command: &Command) -> Option<u32>
    ensures { slot_list result ≡ named_slots command.now }
{
    match command {
        Command::Attach { slot } => Some(slot.0),
        Command::Detach { slot } => Some(slot.0),
        Command::Create { slot, .. } => Some(slot.0),
        Command::Delete { slot } => Some(slot.0),
        Command::Read { slot, .. } => Some(slot.0),
        Command::Write { slot, .. } => Some(slot.0),
        Command::Flush { slot } => Some(slot.0),
        Command::Reserve { .. } => None,
        Command::Renew => None,
        Command::Retire => None,
        Command::Reclaim => None,
    }
}

// The slot whose owner alone answers the command with an Ok.
pub fn of_owner(command: &Command) -> Option<u32>
    ensures { slot_list result ≡ of_owner command.now }
{
    match command {
        Command::Attach { .. } | Command::Detach { .. } => None,
        _ => named(command),
    }
}
// Whether the command is an attach.
pub fn is_attach(command: &Command) -> bool
    ensures { result ≡ is_attach command.now }
{
    matches!(command, Command::Attach { .. })
}
