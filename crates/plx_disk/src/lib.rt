//! What an appliance asks of its device and clock, and the device on which writes land sector by sector.
#![tactic(auto)]

mod ask;
mod blocks;
mod disk;
mod turn;
mod write;

pub use ask::{Answer, Ask};
pub use disk::Disk;
pub use turn::Turn;
