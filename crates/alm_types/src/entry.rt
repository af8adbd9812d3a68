//! Entries of a batch.

use crate::slot::Slot;
use crate::verdict::Verdict;
use crate::want::Want;

/// A request that was judged.
#[derive(Clone, Copy, Debug, PartialEq, Eq)]
pub struct Entry {
    pub slot: Slot,
    /// Which of the slot's requests it is, from 1.
    pub serial: u64,
    /// What was asked.
    pub want: Want,
    pub verdict: Verdict,
}
