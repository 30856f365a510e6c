//! A source in memory.
ghost use Rattle.std.specs.Prelude.{◌≡◌, ◌<◌, ◌≤◌, ◌++◌, ◌↔◌, Contains, IfOk, OnErr, IsErr, IsTrue, MatchResult, Some, length, take, drop, min};
ghost use Rattle.plx_port.specs.Faults.{Rose, next_count};
ghost use Rattle.plx_port.specs.Streams.{Gives};

use crate::{Failed, Source};
use std::marker::Model;

/// A source of bytes in memory. It gives at most `piece` bytes a call, and the calls with the listed
/// numbers, counted from 0, fail.
#[derive(Drop)]
pub struct MemSource {
    bytes: Vec<u8>,
    at: usize,
    piece: usize,
    fails: Vec<u64>,
    calls: u64,
    faults: u64,
}

impl Model for MemSource {
    ghost use Rattle.std.specs.Prelude.{◌≤◌, ◌<◌, vec_len, drop};
    ghost use Rattle.plx_port.specs.Memory.{Incoming};

    ghost Value = { Incoming };

    ghost view = { λ s. record {
      left = drop s.at s.bytes.items;
      piece = s.piece;
      fails = s.fails.items;
      calls = s.calls;
      faults = s.faults;
    } };

    ghost invariant = { λ s. (s.at ≤ vec_len s.bytes) × (0 < s.piece) };
}

impl MemSource {
    /// A source of these bytes, of which no call has been made.
    pub fn new(bytes: Vec<u8>, piece: usize, fails: Vec<u64>) -> MemSource
        requires { 0 < piece }
        ensures { result ≡ record {
          left = bytes.items;
          piece = piece;
          fails = fails.items;
          calls = 0;
          faults = 0;
        } }
    {
        MemSource {
            bytes,
            at: 0,
            piece,
            fails,
            calls: 0,
            faults: 0,
        }
    }

    /// The bytes that are left.
    pub fn left(&self) -> &[u8]
        ensures { result.now ≡ self.now.left }
    {
        &self.bytes[self.at..]
    }

    /// How many calls have failed, no higher than 2^64 - 1.
    pub fn faults(&self) -> u64
        ensures { result ≡ self.now.faults }
    {
        self.faults
    }
}

impl Source for MemSource {
    ghost faults = { λ s. s.faults };

    ghost left = { λ s. Some s.left };

    fn read(&mut self, into: &mut [u8]) -> Result<usize, Failed>
        // A call fails exactly where its number is listed, and changes nothing but the counts.
        ensures fails { IsErr result ↔ Contains self.old.fails self.old.calls }
        ensures err { OnErr result (self.new ≡ record self.old {
          calls = next_count self.old.calls;
          faults = next_count self.old.faults;
        }) }

        // Otherwise it gives as much as the buffer, the piece and what is left allow.
        ensures length { IfOk result (λ n. n
            ≡ min (length into.old) (min self.old.piece (length self.old.left))) }
        ensures bytes { IfOk result (λ n. into.new ≡ take n self.old.left ++ drop n into.old) }
        ensures ok { IfOk result (λ n. self.new ≡ record self.old {
          left = drop n self.old.left;
          calls = next_count self.old.calls;
        }) }

        // What each source ensures.
        ensures count { IfOk result (λ n. n ≤ length into.old) }
        ensures given { Gives (Some self.old.left) (Some self.new.left) result into.new }
        ensures rest { MatchResult result (λ n. drop n into.new ≡ drop n into.old)
            (λ _. into.new ≡ into.old) }
        ensures faults { self.old.faults ≤ self.new.faults }
        ensures failed { OnErr result (Rose self.old.faults self.new.faults) }
    {
        let fails = self.fails.contains(&self.calls);
        self.calls = self.calls.saturating_add(1);
        if fails {
            self.faults = self.faults.saturating_add(1);
            return Err(Failed);
        }
        let left = &self.bytes[self.at..];
        let count = into.len().min(self.piece.min(left.len()));
        into[..count].copy_from_slice(&left[..count]);
        self.at += count;
        Ok(count)
    }
}
