//! Formats a device for a geometry, and counts the allocated blocks of its pool.
#![tactic(auto)]

mod contents;
mod count;
mod format;

pub use count::allocated;
pub use format::formatted_disk;
