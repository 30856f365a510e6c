//! The top call of the program, and what it stands on.
#![tactic(auto)]

mod program;
mod replay;
mod status;
mod texts;
mod words;

pub use plx_port::{MemSink, MemSource, Sink, Source};
pub use plx_text::{print_trace, read_schedule};
pub use program::run;
pub use status::Status;
