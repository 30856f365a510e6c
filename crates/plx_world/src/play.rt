//! The events of a schedule.
use crate::all_worlds::laws;
use crate::world::World;
use plx_base::NoMemory;
use plx_commands::Event;
use plx_disk::Answer;

impl World {
    ghost use Rattle.std.specs.Prelude.{IfOk, OnOk, OnErr};
    ghost use Rattle.plx_world.specs.Playing.{LawsHold, Leads, LeadsPartly, PlaysAll, PlaysSome};

    /// One event. False, and nothing changes, exactly where it isn't possible. Without memory a plain event changes nothing,
    /// and the plain events of a `run` or an `upto` that were made before stand.
    pub fn step(&mut self, event: &Event) -> Result<bool, NoMemory>
        ensures ok { IfOk result (Leads self.old self.new event.now) }
        ensures err { OnErr result (LeadsPartly self.old self.new event.now) }
    {
        laws();
        self.make(event, &mut Answer::Done)
    }

    /// The events of a schedule, one after another. It stops at the first one that finds no memory, and what was played
    /// until then stands.
    pub fn play(&mut self, events: &[Event]) -> Result<(), NoMemory>
        ensures ok { OnOk result (PlaysAll self.old self.new events.now) }
        ensures err { OnErr result (PlaysSome self.old self.new events.now) }
    {
        laws();
        // One block serves all reads.
        let mut buffer = Answer::Done;
        for event in events {
            self.make(event, &mut buffer)?;
        }
        Ok(())
    }

    // One event, where the laws hold.
    fn make(&mut self, event: &Event, buffer: &mut Answer) -> Result<bool, NoMemory>
        requires { LawsHold }
        ensures ok { IfOk result (Leads self.old self.new event.now) }
        ensures err { OnErr result (LeadsPartly self.old self.new event.now) }
    {
        match event {
            Event::Tick { by } => Ok(self.tick(*by)),
            Event::Start { appliance, command } => self.start(*appliance, command),
            Event::Read { appliance } => self.read(*appliance, buffer),
            Event::Issue { appliance } => self.issue(*appliance),
            Event::Land {
                appliance,
                back,
                sector,
            } => Ok(self.land(*appliance, *back, *sector)),
            Event::Done { appliance } => self.done(*appliance),
            Event::Fault { appliance } => self.fault(*appliance),
            Event::Miss { appliance, reading } => self.miss(*appliance, *reading),
            Event::Reading { appliance, reading } => self.reading(*appliance, *reading),
            Event::Crash { appliance } => self.crash(*appliance),
            Event::Run { appliance } => self.run(*appliance, None, buffer),
            Event::Upto { appliance, stop } => self.run(*appliance, Some(*stop), buffer),
        }
    }
}
