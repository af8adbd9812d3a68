//! How a run stands now.

use alm_rings::FetchEnds;
use alm_store::Store;

/// How a run stands now: the next moment of its history. Contracts read it.
#[derive(Drop)]
pub struct CurrentState<'a, K: Store> {
    /// The store, and so the device.
    pub store: &'a K,
    /// Whose fetched batches have the accepted actions.
    pub fetch: &'a FetchEnds,
    /// Up to which count actions may be reported from now on.
    pub floor: u64,
}
