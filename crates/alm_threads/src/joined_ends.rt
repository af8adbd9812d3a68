//! What the threads of a run return.

use crate::ends::Ends;
use alm_moments::RunId;
use alm_rings::Told;
use alm_store::Store;

/// The ends that the threads of a run return, and its sources in the order of the slots.
#[derive(Drop)]
pub struct JoinedEnds<K: Store, T: Told + Drop, J: RunId, S: Drop> {
    pub ends: Ends<K, T, J>,
    pub sources: Vec<S>,
}
