//! What wakes the thread of a slot.

use std::sync::Wait;

/// What wakes the thread of a slot. No contract depends on it.
pub trait Bell {
    /// There may be something for that thread.
    fn ring(&self);

    /// Waits until it is rung, or for a limited time, after `idle` turns in a row that found no work.
    fn wait<R: Wait>(&self, rt: &R, idle: u32);
}
