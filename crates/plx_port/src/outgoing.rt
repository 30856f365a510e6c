//! A sink in memory.
ghost use Rattle.std.specs.Prelude.{◌≡◌, ◌<◌, ◌≤◌, ◌-◌, ◌++◌, ◌↔◌, ◌⊎◌, [], Contains, IfOk, OnErr, IsErr, Some, length, take, min};
ghost use Rattle.std.specs.Io.KnownBytes.{WriteAppends};
ghost use Rattle.plx_port.specs.Faults.{Rose, next_count};

use crate::{Failed, Sink};
use std::alloc::{AllocError, Global};
use std::marker::Model;

/// A sink in memory with room for `room` bytes. It takes at most `piece` bytes a call. The calls with
/// the listed numbers, counted from 0, fail, and so does one with bytes where the room is used up.
#[derive(Drop)]
pub struct MemSink {
    held: Vec<u8>,
    piece: usize,
    room: usize,
    fails: Vec<u64>,
    calls: u64,
    faults: u64,
}

impl Model for MemSink {
    ghost use Rattle.std.specs.Prelude.{◌≤◌, ◌<◌, vec_len, vec_capacity};
    ghost use Rattle.plx_port.specs.Memory.{Outgoing};

    ghost Value = { Outgoing };

    ghost view = { λ s. record {
      held = s.held.items;
      piece = s.piece;
      room = s.room;
      fails = s.fails.items;
      calls = s.calls;
      faults = s.faults;
    } };

    ghost invariant = { λ s. (vec_len s.held ≤ s.room) × (s.room ≤ vec_capacity s.held)
        × (0 < s.piece) };
}

impl MemSink {
    /// An empty sink, of which no call has been made. All its memory is taken here.
    pub fn new(
        alloc: Global,
        piece: usize,
        room: usize,
        fails: Vec<u64>,
    ) -> Result<MemSink, AllocError>
        requires { 0 < piece }
        ensures { IfOk result (λ s. s ≡ record {
          held = [];
          piece = piece;
          room = room;
          fails = fails.items;
          calls = 0;
          faults = 0;
        }) }
    {
        let held = Vec::with_capacity(alloc, room)?;
        Ok(MemSink {
            held,
            piece,
            room,
            fails,
            calls: 0,
            faults: 0,
        })
    }

    /// The bytes that were taken.
    pub fn held(&self) -> &[u8]
        ensures same { result.now ≡ self.now.held }
        ensures within { length self.now.held ≤ self.now.room }
    {
        self.held.as_slice()
    }

    /// How many calls have failed, no higher than 2^64 - 1.
    pub fn faults(&self) -> u64
        ensures { result ≡ self.now.faults }
    {
        self.faults
    }
}

impl Sink for MemSink {
    ghost faults = { λ s. s.faults };

    ghost held = { λ s. Some s.held };

    fn write(&mut self, bytes: &[u8]) -> Result<usize, Failed>
        // A call fails exactly where its number is listed, or the room is used up and there are bytes
        // to take. It changes nothing but the counts.
        ensures fails { IsErr result ↔ (Contains self.old.fails self.old.calls
            ⊎ ((self.old.room ≤ length self.old.held) × (0 < length bytes.now))) }
        ensures err { OnErr result (self.new ≡ record self.old {
          calls = next_count self.old.calls;
          faults = next_count self.old.faults;
        }) }

        // Otherwise it takes as much as the piece and the room allow.
        ensures length { IfOk result (λ n. n ≡ min (length bytes.now)
            (min self.old.piece (self.old.room - length self.old.held))) }
        ensures ok { IfOk result (λ n. self.new ≡ record self.old {
          held = self.old.held ++ take n bytes.now;
          calls = next_count self.old.calls;
        }) }

        // What each sink ensures.
        ensures count { IfOk result (λ n. n ≤ length bytes.now) }
        ensures some { IfOk result (λ n. 0 < length bytes.now → 0 < n) }
        ensures appended { WriteAppends (Some self.old.held) (Some self.new.held) result bytes.now }
        ensures faults { self.old.faults ≤ self.new.faults }
        ensures failed { OnErr result (Rose self.old.faults self.new.faults) }
    {
        let listed = self.fails.contains(&self.calls);
        let room = self.room - self.held.len();
        self.calls = self.calls.saturating_add(1);
        if listed || (room == 0 && !bytes.is_empty()) {
            self.faults = self.faults.saturating_add(1);
            return Err(Failed);
        }
        let count = bytes.len().min(self.piece.min(room));
        self.held.extend_from_slice(&bytes[..count]).unwrap();
        Ok(count)
    }
}
