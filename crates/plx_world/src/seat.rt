//! One appliance of a world.
ghost use Rattle.std.specs.Prelude.{◌≡◌, IfOk};
ghost use Rattle.plx_world.specs.Numbers.{WaitsForNewest};
ghost use Rattle.plx_rules.specs.Settings.{boot_number};
ghost use Rattle.plx_world.specs.Logs.{HasLog};
ghost use Rattle.plx_world.specs.Fresh.{IsFresh};

use plx_appliance::Appliance;
use plx_base::{ApplianceNo, Boot, NoMemory};
use plx_commands::{Command, Reply};
use plx_disk::{Answer, Ask};
use plx_geom::Geometry;
use plx_session::Setting;
use std::alloc::Global;
use std::mem;

/// How many numbers of boots lie between two boots of an appliance.
const APPLIANCES: u128 = 256;

/// An appliance, and what the world keeps of it.
#[derive(Drop)]
pub struct Seat {
    pub appliance: Appliance,
    /// How many boots came before this one.
    pub boots: u32,
    /// The number of the issued write that the ask waits for.
    pub pending: Option<u64>,
    /// The numbers of the writes that it issued over all its boots, the oldest first.
    pub issued: Vec<u64>,
    ghost logged: { HasLog appliance },
    ghost newest: { WaitsForNewest pending issued.items },
}

impl Seat {
    ghost use Rattle.std.specs.Prelude.{◌≡◌, ◌<◌, ◌+◌, ◌^◌, ◌++◌, ◌∷◌, [], List, ℕ, None, Some, IfOk, IfSome, MatchOption, OnErr, OnOk, true, false};
    ghost use Rattle.std.specs.Vec.{vec_capacity, vec_len};
    ghost use Rattle.plx_appliance.specs.Appliance.{IsIdle, IsRunning, IsStanding, StandsFor, appliance_setting};
    ghost use Rattle.plx_alloc.specs.Asking.{IsOnDevice};
    ghost use Rattle.plx_disk.specs.declared.ask.Ask.{Ask};
    ghost use Rattle.plx_rules.specs.Boot.{Asked, Began, Fits, BootEntry, asks, configuration, replies};
    ghost use Rattle.plx_rules.specs.Commands.{IsBuilt, IsWellFormed};
    ghost use Rattle.plx_rules.specs.World.{setting_at};
    ghost use Rattle.plx_world.specs.Seats.{AsksAs, KeepsSeat, TakesAnswer};

    /// An appliance that was asked nothing yet.
    pub(crate) fn new(
        alloc: Global,
        geometry: Geometry,
        appliance: ApplianceNo,
    ) -> Result<Seat, NoMemory>
        ensures fresh { IfOk result (λ seat. IsFresh geometry appliance.0 0 seat.appliance) }
        ensures boots { IfOk result (λ seat. seat.boots ≡ 0) }
        ensures pending { IfOk result (λ seat. seat.pending ≡ None) }
        ensures issued { IfOk result (λ seat. seat.issued.items ≡ []) }
    {
        Ok(Seat {
            appliance: first_of_boot(alloc, geometry, appliance, 0)?,
            boots: 0,
            pending: None,
            issued: Vec::new(alloc),
        })
    }

    /// The ask that stands, if a command runs.
    pub(crate) fn asked(&self) -> Option<Ask>
        ensures ask { AsksAs self.now.appliance result }
        ensures running { IfSome result (λ ask. IsRunning self.now.appliance) }
        ensures within { IfSome result
            (IsOnDevice self.now.appliance.holdings.setting.geometry) }
    {
        if self.appliance.is_idle() {
            return None;
        }
        Some(self.appliance.ask())
    }

    /// The ask that stands is answered, with the reply to which that leads.
    pub(crate) fn answer(&mut self, answer: &Answer) -> Option<Reply>
        requires { IsRunning self.old.appliance }
        ensures taken { TakesAnswer self.old.appliance self.new.appliance answer.now result }
        ensures pending { self.new.pending ≡ None }
        ensures kept { KeepsSeat self.old self.new }
    {
        let _ask = self.appliance.ask();
        self.pending = None;
        self.appliance.answer(answer)
    }

    /// The appliance of the next boot is there, and waits for no write. Without memory nothing changes.
    pub(crate) fn restart(
        &mut self,
        alloc: Global,
        geometry: Geometry,
        appliance: ApplianceNo,
    ) -> Result<(), NoMemory>
        requires few { self.old.boots + 1 < 2 ^ 32 }
        ensures fresh { OnOk result (IsFresh geometry appliance.0 (self.old.boots + 1)
            self.new.appliance) }
        ensures boots { OnOk result (self.new.boots ≡ self.old.boots + 1) }
        ensures pending { OnOk result (self.new.pending ≡ None) }
        ensures issued { OnOk result (self.new.issued.items ≡ self.old.issued.items) }
        ensures err { OnErr result (self.new ≡ self.old) }
    {
        let fresh = first_of_boot(alloc, geometry, appliance, self.boots + 1)?;
        drop(mem::replace(&mut self.appliance, fresh));
        self.boots += 1;
        self.pending = None;
        Ok(())
    }

    /// There is room for the number of one more write. Nothing else changes.
    pub(crate) fn make_room(&mut self) -> Result<(), NoMemory>
        ensures room { OnOk result (vec_len self.new.issued < vec_capacity self.new.issued) }
        ensures appliance { self.new.appliance ≡ self.old.appliance }
        ensures boots { self.new.boots ≡ self.old.boots }
        ensures pending { self.new.pending ≡ self.old.pending }
        ensures issued { self.new.issued.items ≡ self.old.issued.items }
    {
        self.issued.reserve(1)?;
        Ok(())
    }

    /// The write with this number was issued, and is waited for. There is room for its number.
    pub(crate) fn wait_for(&mut self, number: u64)
        requires { vec_len self.old.issued < vec_capacity self.old.issued }
        ensures appliance { self.new.appliance ≡ self.old.appliance }
        ensures boots { self.new.boots ≡ self.old.boots }
        ensures pending { self.new.pending ≡ Some number }
        ensures issued { self.new.issued.items ≡ self.old.issued.items ++ number ∷ [] }
    {
        match self.issued.push(number) {
            Ok(()) => {}
            Err(_) => unreachable!(),
        }
        self.pending = Some(number);
    }

    /// A command begins. Without memory nothing changes.
    pub(crate) fn begin(&mut self, alloc: Global, command: &Command) -> Result<(), NoMemory>
        requires idle { IsIdle self.old.appliance }
        requires built { IsBuilt command.now }
        requires formed { IsWellFormed command.now }
        ensures ok { OnOk result ((log : List BootEntry) → StandsFor self.old.appliance log
            → StandsFor self.new.appliance (Began command.now ∷ log)) }
        ensures pending { OnOk result (self.new.pending ≡ None) }
        ensures err { OnErr result ((log : List BootEntry) → StandsFor self.old.appliance log
            → StandsFor self.new.appliance log) }
        ensures waits { OnErr result (self.new.pending ≡ self.old.pending) }
        ensures kept { KeepsSeat self.old self.new }
    {
        let given = command.copy(alloc)?;
        self.appliance.begin(alloc, given)?;
        self.pending = None;
        Ok(())
    }
}

/// A value is dropped.
fn drop<T: Drop>(_value: T) {}

/// The appliance of a boot that was asked nothing yet, where so many boots came before.
pub(crate) fn first_of_boot(
    alloc: Global,
    geometry: Geometry,
    appliance: ApplianceNo,
    boots: u32,
) -> Result<Appliance, NoMemory>
    ensures { IfOk result (IsFresh geometry appliance.0 boots) }
{
    let setting = Setting::new(geometry, appliance, boot_of(appliance, boots));
    Appliance::fresh(alloc, setting)
}

/// The number of an appliance's boot, where so many came before it.
pub(crate) fn boot_of(appliance: ApplianceNo, boots: u32) -> Boot
    ensures { result.0 ≡ boot_number appliance.0 boots }
{
    Boot(APPLIANCES * u128::from(boots) + u128::from(appliance.0) + 1)
}
