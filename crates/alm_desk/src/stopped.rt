//! Stopped storage.

/// The storage has stopped, which says nothing of what became of the request.
#[derive(Clone, Copy, Debug, PartialEq, Eq)]
pub struct Stopped;
