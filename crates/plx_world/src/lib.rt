//! The world: appliances over one device, moved by the events of a schedule.
#![tactic(auto)]

mod all_worlds;
mod answers;
mod boots;
mod landing;
mod play;
mod run;
mod seat;
mod world;

pub use all_worlds::laws;
pub use world::World;
