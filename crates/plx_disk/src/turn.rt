//! Whether a machine goes on.

/// Whether an ask stands once a machine was begun or answered.
#[derive(Clone, Copy, PartialEq, Eq)]
pub enum Turn {
    /// An ask stands.
    Again,
    /// The machine has ended.
    Ended,
}
