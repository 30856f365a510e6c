//! The top call.
ghost use Rattle.std.specs.Prelude.{◌≡◌, ◌≢◌, ◌≤◌, ◌⊎◌, ◌↔◌};
ghost use Rattle.plx_cli.specs.Program.{Appended, AppendedPart, StatusHasCause, IsAnswer, InputIsAnswered, IsBad, IsReplay, IsTrace, IsOutput, Laws};
ghost use Rattle.plx_port.specs.Faults.{Rose};

use crate::replay::replay;
use crate::status::Status;
use crate::texts::texts;
use crate::words::is_replay;
use plx_port::{Failed, ReadError, Sink, Source, read_all, write_all};
use plx_world::laws;
use std::alloc::Global;

/// The most bytes of the input.
const INPUT_LIMIT: usize = 64 * 1024 * 1024;

/// Does what the words ask for, from the source to the sink, and says how that ended. The source is
/// read to its end before all else, and the text is whole before any of it is written.
///
/// It returns where the calls of the source and of the sink do. The clauses on bytes speak of streams
/// that tell what they hold: of standard input and output nothing is known.
pub fn run<S: Source, K: Sink>(
    alloc: Global,
    words: &Vec<String>,
    source: &mut S,
    sink: &mut K,
) -> Status
    ensures laws { Laws }
    ensures written { IsOutput result (S.left source.old) (S.left source.new)
        (K.held sink.old) (K.held sink.new) }
    ensures untouched { (result ≡ Status.Usage → source.new ≡ source.old)
        × (result ≢ Status.Done → result ≢ Status.BadLine → result ≢ Status.SinkFault
        → sink.new ≡ sink.old) }
    ensures usage { result ≡ Status.Usage ↔ ¬ IsReplay words.now.items }
    ensures cause { StatusHasCause result (S.left source.old) (S.left source.new) (S.faults source.old)
        (S.faults source.new) (K.faults sink.old) (K.faults sink.new) }
    ensures answered { IsReplay words.now.items → InputIsAnswered result (S.left source.old)
        (S.faults source.old) (S.faults source.new) (K.faults sink.old) (K.faults sink.new) }
{
    laws();
    texts();
    if !is_replay(words.as_slice()) {
        return Status::Usage;
    }
    match read_all(alloc, source, INPUT_LIMIT) {
        Ok(bytes) => answer(alloc, bytes.as_slice(), sink),
        Err(ReadError::Failed) => Status::SourceFault,
        Err(ReadError::NoMemory) => Status::NoMemory,
        Err(ReadError::TooLong) => Status::TooLong,
    }
}

// Writes what is to be written for an input.
fn answer<K: Sink>(alloc: Global, bytes: &[u8], sink: &mut K) -> Status
    ensures status { (result ≡ Status.Done) ⊎ (result ≡ Status.BadLine)
        ⊎ (result ≡ Status.SinkFault) ⊎ (result ≡ Status.NoMemory) }
    ensures done { result ≡ Status.Done → Appended IsTrace bytes.now (K.held sink.old)
        (K.held sink.new) }
    ensures bad { result ≡ Status.BadLine → Appended IsBad bytes.now (K.held sink.old)
        (K.held sink.new) }
    ensures part { result ≡ Status.SinkFault
        → AppendedPart IsAnswer bytes.now (K.held sink.old) (K.held sink.new) }
    ensures silent { result ≡ Status.NoMemory → sink.new ≡ sink.old }
    ensures faults { (result ≡ Status.SinkFault → Rose (K.faults sink.old) (K.faults sink.new))
        × (K.faults sink.old ≤ K.faults sink.new) }
{
    let Ok(answer) = replay(alloc, bytes) else {
        return Status::NoMemory;
    };
    match write_all(sink, answer.text.as_slice()) {
        Ok(()) => answer.status,
        Err(Failed) => Status::SinkFault,
    }
}
