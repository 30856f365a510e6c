//! What takes bytes.
ghost use Rattle.std.specs.Prelude.{◌≡◌, ◌≤◌, ◌<◌, ℕ, List, Option, None, IfOk, OnErr, length};
ghost use Rattle.std.specs.Io.KnownBytes.{WriteAppends};
ghost use Rattle.plx_port.specs.Faults.{Rose};

use crate::Failed;

/// A stream to whose end bytes are appended.
pub trait Sink {
    /// How often a call has failed: a count that never falls, and stands still at 2^64 - 1.
    ghost faults: { Self → ℕ };

    /// The bytes that the sink holds, where it tells them.
    ghost held: { Self → Option (List ℕ) } = { λ _. None };

    /// Appends the first bytes of `bytes`, and says how many: at least one, if there is any.
    fn write(&mut self, bytes: &[u8]) -> Result<usize, Failed>
        ensures count { IfOk result (λ n. n ≤ length bytes.now) }
        ensures some { IfOk result (λ n. 0 < length bytes.now → 0 < n) }

        // What is held gains the bytes taken, and tells on. It gains none where the call fails.
        ensures appended { WriteAppends (held self.old) (held self.new) result bytes.now }

        ensures faults { faults self.old ≤ faults self.new }
        ensures failed { OnErr result (Rose (faults self.old) (faults self.new)) };
}
