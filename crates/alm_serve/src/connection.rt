//! The connection of a slot.

/// The connection of a slot.
#[derive(Drop)]
pub enum Connection<W> {
    /// There is none: the next one may begin.
    Awaited,
    /// Its wire.
    Open(W),
    /// It has ended, and its requests may still be unanswered.
    Ended,
}
