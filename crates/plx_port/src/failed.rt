//! The fault of a call to the outside.

/// The outside failed. Each such answer has raised the count of faults of the object that gave it.
#[derive(Clone, Copy)]
pub struct Failed;
