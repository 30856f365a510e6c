//! Writing bytes whole.
ghost use Rattle.std.specs.Prelude.{◌≤◌, ◌<◌, ℕ, OnOk, OnErr, length, take};
ghost use Rattle.std.specs.Io.KnownBytes.{Appends};
ghost use Rattle.plx_port.specs.Faults.{Rose};

use crate::{Failed, Sink};

/// Writes all of `bytes`. Where the sink fails, a part from the front was written, and not all of it.
pub fn write_all<K: Sink>(sink: &mut K, bytes: &[u8]) -> Result<(), Failed>
    ensures ok { OnOk result (Appends (K.held sink.old) (K.held sink.new) bytes.now) }
    ensures err { OnErr result ((n : ℕ) × (n < length bytes.now)
        × Appends (K.held sink.old) (K.held sink.new) (take n bytes.now)) }

    ensures faults { K.faults sink.old ≤ K.faults sink.new }
    ensures failed { OnErr result (Rose (K.faults sink.old) (K.faults sink.new)) }
{
    let mut at = 0;
    while at < bytes.len() {
        at += sink.write(&bytes[at..])?;
    }
    Ok(())
}
