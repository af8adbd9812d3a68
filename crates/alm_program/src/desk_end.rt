//! How a desk has ended.

use crate::fault::Fault;

/// How a desk has ended, and its backend, or the device under it.
#[derive(Drop)]
pub struct DeskEnd<B: Drop> {
    /// All of its input was answered, or why not.
    pub done: Result<(), Fault>,
    pub back: B,
}
