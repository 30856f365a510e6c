//! The texts of schedules and traces.
#![tactic(auto)]

mod command;
mod event;
mod once;
mod print;
mod print_command;
mod print_reply;
mod read;
mod schedule;
mod stop;
mod word;

pub use once::{schedule_once, trace_once};
pub use plx_words::{Lines, Text};
pub use print::{print_bad_line, print_trace};
pub use read::{read_events, read_first, read_schedule};
pub use schedule::{Schedule, TextError};
