//! How a server over an open store ended.

use crate::serve_fault::ServeFault;
use alm_moments::RunId;
use alm_rings::Told;
use alm_store::Store;
use alm_threads::RunEnd;

/// How a server over an open store ended.
#[derive(Drop)]
pub enum StoreEnd<K: Store, T: Told + Drop, J: RunId, S: Drop> {
    /// Nothing was run: why, and the store as it was.
    Unserved(ServeFault, K),
    /// How many actions are stored after a whole run, or why it serves no more; and the run.
    Served(Result<u64, ServeFault>, RunEnd<K, T, J, S>),
}
