//! What the threads return.

use crate::flusher_parts::FlusherParts;
use crate::rings::Rings;
use crate::stop_cause::StopCause;
use alm_moments::{Moments, RunId};
use alm_rings::{Console, Told};
use alm_store::Store;

/// What the threads return, and why they stopped. Without a cause all was answered.
#[derive(Drop)]
pub struct Ends<K: Store, T: Told + Drop, J: RunId> {
    pub consoles: Vec<Console<T>>,
    pub rings: Rings,
    pub flusher: FlusherParts<K, T>,
    /// The history of the run's moments, up to its end.
    pub moments: Moments<J>,
    pub cause: Option<StopCause>,
}
