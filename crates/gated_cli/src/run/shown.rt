//! What is printed of a gate.

/// A text of a gate that a command prints.
#[derive(Clone, Copy, Debug, PartialEq, Eq)]
pub enum Shown<'a> {
    /// The status text.
    Status,
    /// The history text of the queue of this name.
    History(&'a str),
    /// A line for each accepted delivery, or for each behind that of this id.
    Deliveries(Option<&'a str>),
    /// The content of what `GET` of this path would be answered.
    Content(&'a str),
}
