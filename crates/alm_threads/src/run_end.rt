//! A run that has ended.

use crate::report::RunReport;
use alm_moments::RunId;
use alm_rings::Told;
use alm_store::Store;

/// The report of a run, and its sources as they ended, in the order of the slots.
#[derive(Drop)]
pub struct RunEnd<K: Store, T: Told + Drop, J: RunId, S: Drop> {
    pub report: RunReport<K, T, J>,
    pub sources: Vec<S>,
}
