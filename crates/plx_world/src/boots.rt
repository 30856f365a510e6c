//! An appliance is given a command, or loses what it has in memory.
ghost use Rattle.std.specs.Prelude.{IsTrue, ◌≡◌, false, length};
ghost use Rattle.plx_base.specs.Payload.{bytes_of};
ghost use Rattle.plx_rules.specs.Commands.{IsBuilt, IsWellFormed};

use crate::answers::add;
use crate::world::World;
use plx_base::{ApplianceNo, NoMemory, Payload};
use plx_commands::{Command, Entry};

impl World {
    ghost use Rattle.std.specs.Prelude.{IfOk, OnErr};
    ghost use Rattle.plx_commands.specs.declared.event.Event.TheVariants as event;
    ghost use Rattle.plx_world.specs.Standing.{StandsOn, Steps};

    // An appliance is given a command.
    pub(crate) fn start(
        &mut self,
        appliance: ApplianceNo,
        command: &Command,
    ) -> Result<bool, NoMemory>
        ensures ok { IfOk result (Steps self.old self.new (event.Start appliance command.now)) }
        ensures err { OnErr result (StandsOn self.old self.new) }
    {
        let index = appliance.0 as usize;
        if index >= self.seats.len() {
            return Ok(false);
        }
        if !is_built(command) {
            return Ok(false);
        }
        if !self.seats[index].appliance.is_idle() {
            return Ok(false);
        }
        self.trace.reserve(1)?;
        let told = command.copy(self.alloc)?;
        self.seats[index].begin(self.alloc, command)?;
        add(
            &mut self.trace,
            Entry::Start {
                appliance,
                command: told,
            },
        );
        Ok(true)
    }

    // An appliance loses all that it has in memory. Its issued writes stay.
    pub(crate) fn crash(&mut self, appliance: ApplianceNo) -> Result<bool, NoMemory>
        ensures ok { IfOk result (Steps self.old self.new (event.Crash appliance)) }
        ensures err { OnErr result (StandsOn self.old self.new) }
    {
        let index = appliance.0 as usize;
        if index >= self.seats.len() {
            return Ok(false);
        }
        if self.seats[index].boots == u32::MAX {
            return Ok(false);
        }
        self.trace.reserve(1)?;
        self.seats[index].restart(self.alloc, self.geometry, appliance)?;
        add(&mut self.trace, Entry::Crash { appliance });
        Ok(true)
    }
}

// Whether a command is built, and what it carries within its limits.
fn is_built(command: &Command) -> bool
    ensures built { IsTrue result → IsBuilt command.now }
    ensures formed { IsTrue result → IsWellFormed command.now }
    ensures other { result ≡ false → ¬ (IsBuilt command.now × IsWellFormed command.now) }
{
    match command {
        Command::Attach { .. } => true,
        Command::Detach { .. } => true,
        Command::Create { label, .. } => {
            let _bytes = label.as_slice();
            true
        }
        Command::Delete { .. } => true,
        Command::Read { .. } => true,
        Command::Write { payload, .. } => {
            see_whole(payload);
            true
        }
        Command::Renew => true,
        Command::Flush { .. } => false,
        Command::Reserve { count } => 1 <= *count && *count <= 256,
        Command::Retire => true,
        Command::Reclaim => false,
    }
}

// A payload is a block of 4,096 bytes.
fn see_whole(payload: &Payload)
    ensures { length (bytes_of payload.now) ≡ 4096 }
{
    match payload {
        Payload::All(_) => {}
        Payload::Whole(block) => {
            let _bytes = block.as_slice();
        }
    }
}
