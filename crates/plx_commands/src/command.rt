ghost use Rattle.std.specs.Prelude.{◌≡◌, IfOk};

use plx_base::{Label, NoMemory, Payload, SlotNo};
use std::alloc::Global;

/// What an appliance is asked to do.
#[derive(Drop)]
pub enum Command {
    /// Claims the lease of this image slot, and begins a session of it. A free slot may be attached.
    Attach {
        slot: SlotNo,
    },
    /// Ends the session of an attached slot, and releases its lease.
    Detach {
        slot: SlotNo,
    },
    /// Makes an image of `size` blocks in an attached free slot.
    Create {
        slot: SlotNo,
        size: u32,
        label: Label,
    },
    /// Makes an attached slot free.
    Delete {
        slot: SlotNo,
    },
    /// Gives one virtual block of an attached image.
    Read {
        slot: SlotNo,
        vblock: u32,
    },
    /// Writes one virtual block of an attached image.
    Write {
        slot: SlotNo,
        vblock: u32,
        payload: Payload,
    },
    /// Puts the writes of an attached image that only its journal holds into its tree.
    Flush {
        slot: SlotNo,
    },
    /// Takes fresh blocks until the appliance has `count` of them in hand, from 1 to 256.
    Reserve {
        count: u16,
    },
    /// Renews every lease that the appliance holds.
    Renew,
    /// Gives fresh blocks back, and releases every lease that no session needs.
    Retire,
    /// Frees the blocks that no image reaches.
    Reclaim,
}

impl Command {
    /// An equal command.
    pub fn copy(&self, alloc: Global) -> Result<Command, NoMemory>
        ensures { IfOk result (λ command. command ≡ self.now) }
    {
        match self {
            Command::Attach { slot } => Ok(Command::Attach { slot: *slot }),
            Command::Detach { slot } => Ok(Command::Detach { slot: *slot }),
            Command::Create { slot, size, label } => Ok(Command::Create {
                slot: *slot,
                size: *size,
                label: label.copy(),
            }),
            Command::Delete { slot } => Ok(Command::Delete { slot: *slot }),
            Command::Read { slot, vblock } => Ok(Command::Read {
                slot: *slot,
                vblock: *vblock,
            }),
            Command::Write {
                slot,
                vblock,
                payload,
            } => Ok(Command::Write {
                slot: *slot,
                vblock: *vblock,
                payload: payload.copy(alloc)?,
            }),
            Command::Flush { slot } => Ok(Command::Flush { slot: *slot }),
            Command::Reserve { count } => Ok(Command::Reserve { count: *count }),
            Command::Renew => Ok(Command::Renew),
            Command::Retire => Ok(Command::Retire),
            Command::Reclaim => Ok(Command::Reclaim),
        }
    }
}
