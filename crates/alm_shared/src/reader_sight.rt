//! What a reader knows of its looks.

use alm_types::LoggedAction;

/// What a reader knows of its looks: contracts see it, and none is ever made.
pub struct ReaderSight {
    /// How many it has made.
    pub looks: u64,
    /// The list that was published as it made the last one.
    pub seen: [LoggedAction; 0],
}
