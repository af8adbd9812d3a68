//! Request lines.

use crate::ask::Ask;

/// What is asked under an id.
#[derive(Clone, Copy, Debug, PartialEq, Eq)]
pub struct Line {
    pub id: u32,
    pub ask: Ask,
}
