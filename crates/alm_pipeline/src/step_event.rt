//! What comes of a step.

use alm_store::OpenFault;
use alm_types::{Slot, Verdict};

/// What came of a step.
#[derive(Clone, Copy, Debug, PartialEq, Eq)]
pub enum StepEvent {
    /// The request has this serial.
    Sent(u64),
    /// The slot has 64 unanswered requests, or its serials are used up.
    Busy,
    Took(Verdict),
    Sealed,
    Fetched,
    /// The device call was made, and the commit isn't done.
    More,
    Committed,
    /// The device failed, or a checkpoint was due in the last epoch: the bench is closed.
    Failed,
    Published,
    /// A reply was released to this slot.
    Released(Slot),
    GaveBack,
    /// The serial, the verdict and the number of a receipt.
    Received(u64, Verdict, u64),
    /// The count of the plant that was shown.
    Looked(u64),
    Crashed,
    /// The count of the plant that was recovered.
    Opened(u64),
    Unopened(OpenFault),
    /// The step isn't possible, or the look was refused: no change.
    Skipped,
}
