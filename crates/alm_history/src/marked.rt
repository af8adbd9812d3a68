//! Entries as the book of a history keeps them.

/// An entry as the book of a history keeps it: contracts see it, and none is ever made.
pub struct Marked<E> {
    /// What was added. At the beginning of a history it is nothing.
    pub entry: Option<E>,
    /// The key of the word whose pen adds the next one.
    pub next: u64,
}
