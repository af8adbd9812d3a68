//! Faults of a run.

/// Why a desk didn't come to the end of its input.
#[derive(Clone, Copy, Debug, PartialEq, Eq)]
pub enum RunFault {
    /// The reader failed, or gave no end in 2^32 reads.
    Read,
    /// The writer failed.
    Write,
}
