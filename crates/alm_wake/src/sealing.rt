//! Whether the open batch is sealed.

use crate::pause::Pause;

/// Whether the open batch is sealed.
#[derive(Debug, Drop, PartialEq, Eq)]
pub enum Sealing {
    /// Now.
    Now,
    /// After others have joined it, for which it may wait this long.
    After(Pause),
    /// After the batch that is out.
    Later,
}
