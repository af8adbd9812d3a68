//! What went through a slot.

/// How many requests and receipts went through a slot, each up to the last count, 2^64 - 1.
#[derive(Clone, Copy, Debug, PartialEq, Eq)]
pub struct SlotReport {
    /// Requests that the console sent.
    pub sent: u64,
    /// Requests that the sequencer took.
    pub taken: u64,
    /// Receipts that the flusher released.
    pub released: u64,
    /// Receipts that the console received.
    pub received: u64,
}
