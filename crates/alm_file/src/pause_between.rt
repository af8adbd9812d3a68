//! What lies between two pieces that are read.

/// What lies between two pieces that are read while a device is used, so that its own calls aren't held up.
pub trait PauseBetween {
    /// Waits for a moment: whether the next piece is to be read.
    fn pause(&self) -> bool;
}
