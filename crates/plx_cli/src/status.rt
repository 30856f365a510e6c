//! How the program ends.

/// How a run ends. The number is the program's exit status.
#[derive(Clone, Copy, PartialEq, Eq)]
pub enum Status {
    /// The work was done.
    Done = 0,
    /// The words aren't ones that the program knows.
    Usage = 1,
    /// A line of the input isn't in the grammar.
    BadLine = 2,
    /// The source failed.
    SourceFault = 3,
    /// The sink failed.
    SinkFault = 4,
    /// Memory ran out.
    NoMemory = 5,
    /// The input has more bytes than the limit.
    TooLong = 6,
}
