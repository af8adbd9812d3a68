//! Why a run stopped.

/// Why a run stopped with work left.
#[derive(Clone, Copy, Debug, PartialEq, Eq)]
pub enum StopCause {
    /// A step of the store failed: the device failed, or the last epoch is spent.
    Store,
    /// This number of publishes in a row were refused: at least 1,000.
    Publishing(u64),
}
