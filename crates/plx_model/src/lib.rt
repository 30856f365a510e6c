//! The block-list model, and the judge of a trace: what appliances may answer.
#![tactic(auto)]

mod content;
mod disown;
mod effect;
mod first;
mod frozen;
mod judge;
mod model;
mod moves;
mod refusals;
mod replies;
mod report;
mod rules;
mod seat;
mod slot;

pub use judge::JudgeError;
pub use model::Model;
