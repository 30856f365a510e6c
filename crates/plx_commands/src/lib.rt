//! What appliances are asked to do, what they answer, and the events of a schedule.
#![tactic(auto)]

mod command;
mod entry;
mod event;
mod limits;
mod list;
mod reply;

pub use command::Command;
pub use entry::Entry;
pub use event::{Event, Region, Stop};
pub use limits::{GREATEST_SIZE, LAST_CLAIM, LAST_GENERATION, LAST_WRITE};
pub use list::{Entries, EventList};
pub use reply::{Reply, Report};
