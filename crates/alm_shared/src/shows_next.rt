//! The step by which a writer shows the next value.

use crate::reader_sight::ReaderSight;
use crossbeam_utils::rule::Outcome;

/// The step by which a writer shows the next value.
pub struct ShowsNext;

impl<T> Outcome<T, ReaderSight> for ShowsNext {
    ghost then = { λ old _ shown new. Unit {0} };
}
