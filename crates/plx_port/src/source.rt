//! What gives bytes.
ghost use Rattle.std.specs.Prelude.{◌≡◌, ◌≤◌, ℕ, List, Option, None, IfOk, OnErr, MatchResult, length, drop};
ghost use Rattle.plx_port.specs.Faults.{Rose};
ghost use Rattle.plx_port.specs.Streams.{Gives};

use crate::Failed;

/// A stream of bytes that are taken from its front.
pub trait Source {
    /// How often a call has failed: a count that never falls, and stands still at 2^64 - 1.
    ghost faults: { Self → ℕ };

    /// The bytes that are left, where the source tells them.
    ghost left: { Self → Option (List ℕ) } = { λ _. None };

    /// Takes the first bytes of what is left, and gives them in the front of `into`. No byte into a
    /// buffer that isn't empty is the end of the stream.
    fn read(&mut self, into: &mut [u8]) -> Result<usize, Failed>
        ensures count { IfOk result (λ n. n ≤ length into.old) }

        // What is left loses the bytes given, and tells on. It loses none where the call fails.
        ensures given { Gives (left self.old) (left self.new) result into.new }

        // Of the buffer only the bytes given change.
        ensures rest { MatchResult result (λ n. drop n into.new ≡ drop n into.old)
            (λ _. into.new ≡ into.old) }

        ensures faults { faults self.old ≤ faults self.new }
        ensures failed { OnErr result (Rose (faults self.old) (faults self.new)) };
}
