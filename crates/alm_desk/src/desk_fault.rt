//! Faults of a desk.

/// Why a desk doesn't answer.
#[derive(Clone, Copy, Debug, PartialEq, Eq)]
pub enum DeskFault {
    /// The writer failed. The desk is closed from then on; what was written before stays.
    Write,
    /// The writer failed before.
    Closed,
}
