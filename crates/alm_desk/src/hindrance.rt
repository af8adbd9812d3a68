//! What hinders an answer.

/// What hindered the answer to a line.
#[derive(Clone, Copy, Debug, PartialEq, Eq)]
pub enum Hindrance {
    Nothing,
    /// No memory for its list.
    NoMemory,
    /// The storage stopped.
    Stopped,
}
