//! What came of a connection.

/// What was done for a connection.
#[derive(Clone, Copy, Debug, PartialEq, Eq)]
pub enum Served {
    /// The input was empty, and nothing was written.
    Nothing,
    /// An answer of this status was written.
    Answered(u16),
}
