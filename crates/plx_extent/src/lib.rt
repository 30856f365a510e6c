//! The map of an extent: which of its blocks are taken.
#![tactic(auto)]

mod map;
mod marks;
mod words;

pub use map::ExtentMap;
pub use marks::MarkSet;
