//! What a source asks for after a turn.

/// What a source asks for after a turn.
#[derive(Clone, Copy, Debug, PartialEq, Eq)]
pub enum Go {
    /// The next turn, immediately.
    Go,
    /// The next turn, but others may run first.
    Rest,
    /// No turn more.
    End,
}
