//! The records of the device, and how they are spelled.
#![tactic(auto)]

mod descriptor;
mod entry;
mod image;
mod lease;

pub use descriptor::{Descriptor, read_descriptor, write_descriptor};
pub use entry::{LogEntry, read_entry, write_entry};
pub use image::{ImageRecord, LiveRecord, read_image, write_image};
pub use lease::{read_lease, write_lease};
