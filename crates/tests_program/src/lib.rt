//! Tests of the top call: whole schedules with their traces, and how a run ends.
#![tactic(auto)]

#[cfg(test)]
mod contention;
#[cfg(test)]
mod large;
#[cfg(test)]
mod program;
#[cfg(test)]
mod schedules;
#[cfg(test)]
mod space;
#[cfg(test)]
mod statuses;
