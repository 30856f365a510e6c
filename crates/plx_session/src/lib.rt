//! One attached image: its record and journal as they are known, and the machines that load, read and write it under
//! its lease.
#![tactic(auto)]

mod command;
mod failure;
mod finding;
mod images;
mod journal;
mod leased;
mod load;
mod read;
mod record;
mod refusal;
mod session;
mod setting;
mod spell;
mod work;
mod write;

pub use command::ImageCommand;
pub use failure::Failure;
pub use journal::{Journal, PlacedWrite};
pub use leased::Leased;
pub use load::{Load, LoadAt};
pub use read::Read;
pub use record::{Done, Record, RecordAt};
pub use refusal::Refusal;
pub use session::Session;
pub use setting::Setting;
pub use work::ImageWork;
pub use write::{Write, WriteAt};
