//! A source that has ended.

use alm_rings::{Console, Told};

/// A source that has ended, with its console.
#[derive(Drop)]
pub struct SourceEnd<T: Told + Drop, S: Drop> {
    pub console: Console<T>,
    pub source: S,
}
