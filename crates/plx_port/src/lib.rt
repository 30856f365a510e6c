//! The streams of the outside: a source of bytes and a sink for bytes, both in memory too, and what
//! reads a source to its end and writes a text whole.
#![tactic(auto)]

mod failed;
mod incoming;
mod input;
mod outgoing;
mod output;
mod reading;
mod sink;
mod source;
mod writing;

pub use failed::Failed;
pub use incoming::MemSource;
pub use input::ReadSource;
pub use outgoing::MemSink;
pub use output::WriteSink;
pub use reading::{ReadError, read_all};
pub use sink::Sink;
pub use source::Source;
pub use writing::write_all;
