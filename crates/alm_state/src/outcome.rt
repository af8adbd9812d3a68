//! Outcomes.

use crate::row::Row;

/// What becomes of an alarm.
#[derive(Clone, Copy, Debug, PartialEq, Eq)]
pub enum Outcome {
    /// Another row, which takes no new stamp.
    Changed(Row),
    /// A row that is annunciated again, with the next stamp.
    Annunciated(Row),
    /// A row that is shelved, with the next stamp.
    Shelved(Row),
}
