//! Tests of what stands below the laws on worlds, over public calls: blocks, places, records and maps as bytes, a device and its
//! landings, the judge of traces, streams, and schedules and traces as texts.
#![tactic(auto)]

#[cfg(test)]
mod blocks;
#[cfg(test)]
mod device;
mod devices;
#[cfg(test)]
mod entries;
#[cfg(test)]
mod formatted;
#[cfg(test)]
mod geometry;
#[cfg(test)]
mod judge;
#[cfg(test)]
mod lines;
#[cfg(test)]
mod maps;
#[cfg(test)]
mod records;
#[cfg(test)]
mod streams;
#[cfg(test)]
mod texts;

pub use devices::{GREATEST, SMALL};
