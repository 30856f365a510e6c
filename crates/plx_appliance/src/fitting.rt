//! Whether an answer fits an ask.
ghost use Rattle.std.specs.Prelude.{◌≡◌, IsTrue, false};
ghost use Rattle.plx_rules.specs.Boot.{Fits};

use plx_base::BLOCK_LEN;
use plx_disk::{Answer, Ask};

/// Readings of the clock are below this, in milliseconds.
const READING_LIMIT: u64 = 1 << 48;

/// Whether an answer fits an ask: bytes or a fault for a read; done, a fault or a reading past the guard for a write;
/// a reading for the clock, no earlier than was waited for. Readings are below 2^48.
pub fn fits(ask: &Ask, answer: &Answer) -> bool
    ensures yes { IsTrue result → Fits ask.now answer.now }
    ensures no { result ≡ false → ¬ (Fits ask.now answer.now) }
{
    match (ask, answer) {
        (Ask::Read { .. }, Answer::Bytes(bytes)) => bytes.as_slice().len() == BLOCK_LEN,
        (Ask::Read { .. }, Answer::Fault) => true,
        (Ask::Write { .. }, Answer::Done | Answer::Fault) => true,
        (Ask::Write { guard, .. }, Answer::Missed(reading)) => {
            *guard < *reading && *reading < READING_LIMIT
        }
        (Ask::Clock, Answer::Reading(reading)) => *reading < READING_LIMIT,
        (Ask::Until { from }, Answer::Reading(reading)) => {
            *from <= *reading && *reading < READING_LIMIT
        }
        _ => false,
    }
}
