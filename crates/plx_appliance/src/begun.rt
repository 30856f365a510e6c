//! A command that has begun, before its first reading of the clock.
ghost use Rattle.std.specs.Prelude.{◌≡◌, ◌≤◌};
ghost use Rattle.std.specs.Vec.{vec_len};

use crate::renewals::Renewals;
use plx_alloc::MapRoom;
use plx_base::{Block, Label, NoMemory, Payload, SlotNo};
use plx_commands::Command;
use plx_session::{ImageCommand, Session, Setting};
use std::alloc::Global;

/// The memory of an attach: a session for a journal of so many slots, and a block for its claim.
#[derive(Drop)]
pub struct Room {
    pub slots: u32,
    pub session: Session,
    pub lease: Block,
    pub alloc: Global,
    ghost same: { session.journal.slots ≡ slots },
    ghost empty: { vec_len session.journal.writes ≡ 0 },
}

impl Room {
    ghost use Rattle.std.specs.Prelude.{IfOk};

    /// The memory of an attach of an image with so many journal slots.
    pub fn new(alloc: Global, slots: u32) -> Result<Room, NoMemory>
        ensures { IfOk result (λ r. r.slots ≡ slots) }
    {
        Ok(Room {
            slots,
            session: Session::new(alloc, slots)?,
            lease: Block::zeros(alloc)?,
            alloc,
        })
    }
}

/// How many blocks a reserve is to have in hand, at most 256.
#[derive(Clone, Copy)]
pub struct Need {
    pub count: u16,
    ghost most: { count ≤ 256 },
}

/// A command that has begun, with all the memory that it can need.
#[derive(Drop)]
pub enum Begun {
    Attach {
        slot: SlotNo,
        room: Room,
    },
    Detach {
        slot: SlotNo,
        lease: Block,
    },
    Image {
        slot: SlotNo,
        command: ImageCommand,
    },
    Renew {
        renewals: Renewals,
        lease: Block,
    },
    Reserve {
        need: Need,
        room: MapRoom,
        lease: Block,
    },
    Retire {
        room: MapRoom,
        extent_lease: Block,
        image_lease: Block,
    },
}

impl Begun {
    ghost use Rattle.std.specs.Prelude.{ℕ, List, IfOk};
    ghost use Rattle.plx_geom.specs.Geometry.{lease_count};
    ghost use Rattle.plx_rules.specs.Commands.{IsBuilt, IsWellFormed, command_process};
    ghost use Rattle.plx_rules.specs.Holds.{Hold};
    ghost use Rattle.plx_rules.specs.Session.{Known};
    ghost use Rattle.plx_rules.specs.Settings.{Setting as Given};
    ghost use Rattle.plx_appliance.specs.Begins.{BeginsAs, begun_leases, waiting_process, begun_slots};

    /// A command begins, with all the memory that it can need.
    pub fn begin(alloc: Global, setting: &Setting, command: Command) -> Result<Begun, NoMemory>
        requires built { IsBuilt command }
        requires limits { IsWellFormed command }
        ensures process { IfOk result (λ b. (s : Given) (known : Known) (holds : ℕ → Hold)
            (hand : List ℕ) (reading : ℕ) → waiting_process s known holds hand reading b
            ≡ command_process s known holds hand reading command) }
        ensures slots { IfOk result (λ b. begun_slots setting.now.geometry.slots b
            ≡ setting.now.geometry.slots) }
        ensures leases { IfOk result (λ b. begun_leases (lease_count setting.now.geometry) b
            ≡ lease_count setting.now.geometry) }
    {
        Begun::built(alloc, setting, command)
    }

    // A command that is built begins.
    fn built(alloc: Global, setting: &Setting, command: Command) -> Result<Begun, NoMemory>
        requires built { IsBuilt command }
        requires limits { IsWellFormed command }
        ensures { IfOk result (BeginsAs setting.now.geometry.slots
            (lease_count setting.now.geometry) command) }
    {
        match command {
            Command::Attach { slot } => Begun::attach(alloc, setting, slot),
            Command::Detach { slot } => Begun::detach(alloc, slot),
            Command::Create { slot, size, label } => Begun::create(alloc, slot, size, label),
            Command::Delete { slot } => Begun::delete(alloc, slot),
            Command::Read { slot, vblock } => Begun::read(alloc, slot, vblock),
            Command::Write {
                slot,
                vblock,
                payload,
            } => Begun::write(alloc, slot, vblock, &payload),
            Command::Renew => Begun::renew(alloc, setting),
            Command::Reserve { count } => Begun::reserve(alloc, Need { count }),
            Command::Retire => Begun::retire(alloc),
            Command::Flush { .. } | Command::Reclaim => unreachable!(),
        }
    }

    // An attach: room for the session, and a block for its claim.
    fn attach(alloc: Global, setting: &Setting, slot: SlotNo) -> Result<Begun, NoMemory>
        ensures { (leases : ℕ) → IfOk result (BeginsAs setting.now.geometry.slots leases
            (Command.Attach slot)) }
    {
        let room = Room::new(alloc, setting.geometry.slots)?;
        Ok(Begun::Attach { slot, room })
    }

    // A detach: a block for the lease that is released.
    fn detach(alloc: Global, slot: SlotNo) -> Result<Begun, NoMemory>
        ensures { (slots leases : ℕ) → IfOk result (BeginsAs slots leases (Command.Detach slot)) }
    {
        let lease = Block::zeros(alloc)?;
        Ok(Begun::Detach { slot, lease })
    }

    // A create: a block for the record.
    fn create(alloc: Global, slot: SlotNo, size: u32, label: Label) -> Result<Begun, NoMemory>
        ensures { (slots leases : ℕ) → IfOk result (BeginsAs slots leases
            (Command.Create slot size label)) }
    {
        let record = Block::zeros(alloc)?;
        let command = ImageCommand::Create {
            size,
            label,
            record,
        };
        Ok(Begun::Image { slot, command })
    }

    // A delete: a block for the record.
    fn delete(alloc: Global, slot: SlotNo) -> Result<Begun, NoMemory>
        ensures { (slots leases : ℕ) → IfOk result (BeginsAs slots leases (Command.Delete slot)) }
    {
        let record = Block::zeros(alloc)?;
        let command = ImageCommand::Delete { record };
        Ok(Begun::Image { slot, command })
    }

    // A read: a block for the data.
    fn read(alloc: Global, slot: SlotNo, vblock: u32) -> Result<Begun, NoMemory>
        ensures { (slots leases : ℕ) → IfOk result (BeginsAs slots leases
            (Command.Read slot vblock)) }
    {
        let block = Block::zeros(alloc)?;
        let command = ImageCommand::Read { vblock, block };
        Ok(Begun::Image { slot, command })
    }

    // A write: its data, and a block for the descriptor.
    fn write(alloc: Global, slot: SlotNo, vblock: u32, payload: &Payload) -> Result<Begun, NoMemory>
        ensures { (slots leases : ℕ) → IfOk result (BeginsAs slots leases
            (Command.Write slot vblock payload.now)) }
    {
        let block = payload.to_block(alloc)?;
        let descriptor = Block::zeros(alloc)?;
        let command = ImageCommand::Write {
            vblock,
            block,
            descriptor,
        };
        Ok(Begun::Image { slot, command })
    }

    // A renew: the leases that are to be renewed, and a block for each in turn.
    fn renew(alloc: Global, setting: &Setting) -> Result<Begun, NoMemory>
        ensures { (slots : ℕ) → IfOk result (BeginsAs slots (lease_count setting.now.geometry)
            Command.Renew) }
    {
        let renewals = Renewals::new(alloc, setting.lease_count())?;
        let lease = Block::zeros(alloc)?;
        Ok(Begun::Renew { renewals, lease })
    }

    // A reserve: the memory of its writes of maps, and a block for leases.
    fn reserve(alloc: Global, need: Need) -> Result<Begun, NoMemory>
        ensures { (slots leases : ℕ) → IfOk result (BeginsAs slots leases
            (Command.Reserve need.count)) }
    {
        let room = MapRoom::new(alloc)?;
        let lease = Block::zeros(alloc)?;
        Ok(Begun::Reserve { need, room, lease })
    }

    // A retire: the memory of its writes of maps, and a block for the leases of each kind.
    fn retire(alloc: Global) -> Result<Begun, NoMemory>
        ensures { (slots leases : ℕ) → IfOk result (BeginsAs slots leases Command.Retire) }
    {
        let room = MapRoom::new(alloc)?;
        let extent_lease = Block::zeros(alloc)?;
        let image_lease = Block::zeros(alloc)?;
        Ok(Begun::Retire {
            room,
            extent_lease,
            image_lease,
        })
    }
}
