//! What the model keeps of one appliance.
use plx_commands::Command;

/// The most images of a model.
pub const MAX_IMAGES: usize = 256;

/// An appliance: of which slots it has a session, and the command that it is in.
#[derive(Drop)]
pub struct Seat {
    pub sessions: [bool; MAX_IMAGES],
    pub running: Option<Command>,
}

impl Seat {
    ghost use Rattle.std.specs.Prelude.{◌≡◌, ◌<◌, None, true, false};
    ghost use Rattle.plx_commands.specs.Places.{at};
    ghost use Rattle.plx_model.specs.Shown.{seat_sessions};

    // The seat of an appliance without a session, and in no command.
    pub fn new() -> Seat
        ensures sessions { seat_sessions result ≡ (λ slot. false) }
        ensures running { result.running ≡ None }
    {
        Seat {
            sessions: [false; MAX_IMAGES],
            running: None,
        }
    }

    // Whether the appliance has a session of the slot.
    pub fn has(&self, slot: u32) -> bool
        ensures { result ≡ seat_sessions self.now slot }
    {
        let index = slot as usize;
        if index < MAX_IMAGES {
            self.sessions[index]
        } else {
            false
        }
    }

    // The appliance has a session of the slot from now on.
    pub fn open(&mut self, slot: u32)
        requires { slot < 256 }
        ensures sessions { seat_sessions self.new ≡ at (seat_sessions self.old) slot true }
        ensures running { self.new.running ≡ self.old.running }
    {
        self.sessions[slot as usize] = true;
    }

    // The appliance has no session of the slot any more.
    pub fn close(&mut self, slot: u32)
        ensures sessions { seat_sessions self.new ≡ at (seat_sessions self.old) slot false }
        ensures running { self.new.running ≡ self.old.running }
    {
        let index = slot as usize;
        if index < MAX_IMAGES {
            self.sessions[index] = false;
        }
    }

    // The appliance is in this command, or in none, and the one that it was in is dropped.
    pub fn run(&mut self, command: Option<Command>)
        ensures sessions { seat_sessions self.new ≡ seat_sessions self.old }
        ensures running { self.new.running ≡ command }
    {
        self.running = command;
    }

    // The appliance has no session, and is in no command.
    pub fn forget(&mut self)
        ensures sessions { seat_sessions self.new ≡ (λ slot. false) }
        ensures running { self.new.running ≡ None }
    {
        *self = Seat::new();
    }
}
