//! Sources that have ended, with their consoles.

use alm_rings::{Console, Told};

/// The sources that have ended and their consoles, each in the order of the slots.
#[derive(Drop)]
pub struct JoinedThreads<T: Told + Drop, S: Drop> {
    pub consoles: Vec<Console<T>>,
    pub sources: Vec<S>,
}
