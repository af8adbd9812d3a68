//! What a value adds to a history.

/// What a value of type `X` adds to a history of `E`: contracts alone see it.
pub trait Adds<X, E> {
    /// The entry.
    ghost entry: { X → E };
}
