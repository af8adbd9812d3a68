//! Moments of a run.

use alm_types::Action;

/// A moment of a run, as its history keeps it: contracts see it, and none is ever made.
pub struct RecordedMoment {
    /// The bytes of the device, as they read.
    pub bytes: [u8; 0],
    /// Of each of its places whether a write has touched it since the last sync that was done.
    pub pending: [bool; 0],
    /// Whether a write or a sync has failed since the last sync that was done.
    pub faulted: bool,
    /// The actions that were accepted.
    pub accepted: [Action; 0],
    /// Up to which count receipts and looks may report actions from then on.
    pub floor: u64,
}
